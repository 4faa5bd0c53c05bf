//! The lines on limits that were passed. A limit is named if it is not the standard one.
ghost use Rattle.std.specs.Prelude.{◌≡◌, ◌++◌, OnOk, IfOk};
ghost use Rattle.plan_model.specs.Limits.{standard};
ghost use Rattle.sccp_report.specs.Limits.{beyond, beyond_count, too_long_line, too_wide_line};

use crate::text::Text;
use plan_model::{Counted, Limits};
use sccp_base::{Octets, OutOfMemory};
use std::alloc::Global;

/// Appends a blank and the limit, if it is not the standard one.
#[tactic(auto, unfolding(crate::specs::Limits::beyond))]
fn put_beyond(text: &mut Text, usual: u32, limit: u32) -> Result<(), OutOfMemory>
    ensures { OnOk result (text.new ≡ text.old ++ beyond usual limit) }
{
    if limit == usual {
        return Ok(());
    }
    text.put_numbered(b" ", limit)
}

/// Appends the most nodes, rows or covers that a plan may have, if it is not the standard number.
pub fn put_beyond_count(
    text: &mut Text,
    limits: Limits,
    counted: &Counted,
) -> Result<(), OutOfMemory>
    ensures { OnOk result (text.new ≡ text.old ++ beyond_count limits counted.now) }
{
    let usual = Limits::standard();
    match counted {
        Counted::Nodes => put_beyond(text, u32::from(usual.nodes), u32::from(limits.nodes)),
        Counted::Rows => put_beyond(text, usual.rows, limits.rows),
        Counted::Covers => put_beyond(text, u32::from(usual.covers), u32::from(limits.covers)),
    }
}

/// The line on a file that has more octets than it may have.
#[tactic(auto, unfolding(crate::specs::Limits::too_long_line))]
pub fn too_long_text(alloc: Global, limits: Limits) -> Result<Octets, OutOfMemory>
    ensures { IfOk result (λ text. text ≡ too_long_line limits) }
{
    let mut text = Text::new(alloc);
    text.put(b"too long")?;
    put_beyond(&mut text, Limits::standard().octets, limits.octets)?;
    text.put(b"\n")?;
    Ok(text.into_octets())
}

/// Appends the line of a plan that reaches more classes of titles than a search goes over.
#[tactic(auto, unfolding(crate::specs::Limits::too_wide_line))]
pub fn put_too_wide(text: &mut Text, limits: Limits) -> Result<(), OutOfMemory>
    ensures { OnOk result (text.new ≡ text.old ++ too_wide_line limits) }
{
    text.put(b"too wide")?;
    put_beyond(text, Limits::standard().classes, limits.classes)?;
    text.put(b"\n")
}
