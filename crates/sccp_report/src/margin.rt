//! The text of how many points can be lost before a title of one cover of a plan is stopped.
ghost use Rattle.std.specs.Prelude.{◌≡◌, ◌≤◌, ◌++◌, length, All, OnOk, IfOk};
ghost use Rattle.sccp_report.specs.Hops.{IsHopIn, hops_text};
ghost use Rattle.sccp_report.specs.Margins.{points_lost, stopped_line, survives_line, survives_any_line, too_wide_at_line};
ghost use Rattle.sccp_report.specs.Margins.{margin_text, HasStopIn};

use crate::cover::put_cover;
use crate::hop::put_hops;
use crate::text::Text;
use plan_margin::{Margin, Stop};
use plan_model::Plan;
use sccp_base::{Marking, Octets, OutOfMemory};
use std::alloc::Global;

/// The number of lost points, if all relays of a route hold the same marks.
pub fn points_lost(markings: &[Marking]) -> usize
    ensures { result ≡ points_lost markings.now }
{
    match markings {
        [marks, ..] => marks.marks().len(),
        [] => 0,
    }
}

/// Appends how many points stop a title.
#[tactic(auto, unfolding(crate::specs::Margins::stopped_line))]
fn put_stopped(text: &mut Text, count: usize) -> Result<(), OutOfMemory>
    ensures { OnOk result (text.new ≡ text.old ++ stopped_line count) }
{
    text.put_counted(b"stopped by ", count)?;
    text.put(b"\n")
}

/// Appends how many points stop a title, and the route of a title that they stop.
fn put_stop(text: &mut Text, plan: &Plan, stop: &Stop) -> Result<(), OutOfMemory>
    requires nodes { All (IsHopIn plan.now) stop.now.hops }
    requires enough { length stop.now.hops ≤ length stop.now.markings }
    ensures { OnOk result (text.new ≡ text.old
        ++ stopped_line (points_lost stop.now.markings) ++ hops_text plan.now stop.now.hops stop.now.markings) }
{
    let markings = stop.markings.as_slice();
    put_stopped(text, points_lost(markings))?;
    put_hops(text, plan, stop.hops.as_slice(), markings)
}

/// Appends that up to this number of points stop no title.
#[tactic(auto, unfolding(crate::specs::Margins::survives_line))]
fn put_survives(text: &mut Text, losses: u8) -> Result<(), OutOfMemory>
    ensures { OnOk result (text.new ≡ text.old ++ survives_line losses) }
{
    text.put_numbered(b"survives ", u32::from(losses))?;
    text.put(b"\n")
}

/// Appends that no number of points stops a title.
#[tactic(auto, unfolding(crate::specs::Margins::survives_any_line))]
fn put_survives_any(text: &mut Text) -> Result<(), OutOfMemory>
    ensures { OnOk result (text.new ≡ text.old ++ survives_any_line) }
{
    text.put(b"survives any\n")
}

/// Appends for which number of points the search was given up.
#[tactic(auto, unfolding(crate::specs::Margins::too_wide_at_line))]
fn put_too_wide_at(text: &mut Text, count: u8) -> Result<(), OutOfMemory>
    ensures { OnOk result (text.new ≡ text.old ++ too_wide_at_line count) }
{
    text.put_numbered(b"too wide at ", u32::from(count))?;
    text.put(b"\n")
}

/// The margin of the cover of this number, if up to `losses` points may be lost, and the route of a title that is stopped.
pub fn margin_text(
    alloc: Global,
    number: u16,
    plan: &Plan,
    losses: u8,
    margin: &Margin,
) -> Result<Octets, OutOfMemory>
    requires { HasStopIn plan.now margin.now }
    ensures { IfOk result (λ text. text ≡ margin_text number plan.now losses margin.now) }
{
    let mut text = Text::new(alloc);
    put_cover(&mut text, number)?;
    match margin {
        Margin::Stopped(stop) => put_stop(&mut text, plan, stop)?,
        Margin::Survives => put_survives(&mut text, losses)?,
        Margin::SurvivesAny => put_survives_any(&mut text)?,
        Margin::TooWide(count) => put_too_wide_at(&mut text, *count)?,
    }
    Ok(text.into_octets())
}
