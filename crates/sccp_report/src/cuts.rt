//! The lines on every cut of octets.
ghost use Rattle.std.specs.Prelude.{◌≡◌, ◌++◌, OnOk, IfOk};
ghost use Rattle.sccp_report.specs.CutsText.{cut_text, cut_line, cut_lines, cuts_text};

use crate::report::put_undecodable;
use crate::text::Text;
use sccp_base::{Octets, OutOfMemory};
use sccp_message::{DecodeFault, survey};
use std::alloc::Global;

// Whether octets are a message, or why they are none.
#[tactic(auto, unfolding(crate::specs::CutsText::cut_text))]
fn put_cut(text: &mut Text, fault: &Option<DecodeFault>) -> Result<(), OutOfMemory>
    ensures { OnOk result (text.new ≡ text.old ++ cut_text fault.now) }
{
    match fault {
        None => text.put(b"ok\n"),
        Some(fault) => put_undecodable(text, *fault),
    }
}

// The line of the first n octets.
#[tactic(auto, unfolding(crate::specs::CutsText::cut_line))]
fn put_cut_line(text: &mut Text, n: usize, fault: &Option<DecodeFault>) -> Result<(), OutOfMemory>
    ensures { OnOk result (text.new ≡ text.old ++ cut_line n fault.now) }
{
    text.put_count(n)?;
    text.put(b" ")?;
    put_cut(text, fault)
}

// A line for each, numbered from 0 on.
fn put_cuts(text: &mut Text, faults: &[Option<DecodeFault>]) -> Result<(), OutOfMemory>
    ensures { OnOk result (text.new ≡ text.old ++ cut_lines 0 faults.now) }
{
    for (n, fault) in faults.iter().enumerate() {
        put_cut_line(text, n, fault)?;
    }
    Ok(())
}

/// A line for each number of octets, from none to all. It has the number, and `ok` if that number of first octets is a
/// message. Otherwise it has the line of `message_text` that says why they are none.
#[tactic(auto, unfolding(crate::specs::CutsText::cuts_text))]
pub fn cuts_text(alloc: Global, octets: &[u8]) -> Result<Octets, OutOfMemory>
    ensures { IfOk result (λ text. text ≡ cuts_text octets.now) }
{
    let mut text = Text::new(alloc);
    let faults = survey(alloc, octets)?;
    put_cuts(&mut text, faults.as_slice())?;
    Ok(text.into_octets())
}
