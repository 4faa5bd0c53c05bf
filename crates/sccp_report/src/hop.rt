//! The text of a route: a line for each hop.
ghost use Rattle.std.specs.Prelude.{◌≡◌, ◌≤◌, ◌++◌, length, All, OnOk, IfOk};
ghost use Rattle.sccp_report.specs.Hops.{spot_text, target_text, step_text, hop_line, hops_text, IsHopIn};

use crate::mark::{put_destination, put_marks};
use crate::node::put_node;
use crate::text::Text;
use crate::values::{put_digits, put_selector};
use plan_model::{Hop, Plan, Spot, Step};
use sccp_base::{List, Marking, Octets, OutOfMemory};
use std::alloc::Global;

/// Appends a title at a node.
#[tactic(auto, unfolding(crate::specs::Hops::spot_text))]
pub fn put_spot(text: &mut Text, plan: &Plan, spot: &Spot) -> Result<(), OutOfMemory>
    ensures { OnOk result (text.new ≡ text.old ++ spot_text plan.now spot.now) }
{
    text.put(b"at ")?;
    put_node(text, plan, spot.node)?;
    text.put(b" ")?;
    put_selector(text, &spot.selector)?;
    text.put_numbered(b" ", u32::from(spot.ssn))?;
    text.put(b" ")?;
    put_digits(text, &spot.digits)
}

// The place of the target that was taken, from 0.
#[tactic(auto, unfolding(crate::specs::Hops::target_text))]
fn put_target(text: &mut Text, place: u8) -> Result<(), OutOfMemory>
    ensures { OnOk result (text.new ≡ text.old ++ target_text place) }
{
    text.put_numbered(b" target ", u32::from(place))
}

/// Appends what happens to a title at a node.
#[tactic(auto, unfolding(crate::specs::Hops::step_text))]
pub fn put_step(text: &mut Text, plan: &Plan, step: &Step) -> Result<(), OutOfMemory>
    ensures { OnOk result (text.new ≡ text.old ++ step_text plan.now step.now) }
{
    match step {
        Step::Sent { next, target } => {
            text.put(b" sent ")?;
            put_node(text, plan, next.node)?;
            put_target(text, *target)
        }
        Step::Ended { pc, ssn, target } => {
            text.put(b" ended ")?;
            put_destination(text, *pc, *ssn)?;
            put_target(text, *target)
        }
        Step::Blocked { cause, .. } => text.put_numbered(b" blocked ", u32::from(*cause)),
        Step::NoRow { cause } => text.put_numbered(b" no row ", u32::from(*cause)),
        Step::Overgrown => text.put(b" overgrown"),
    }
}

/// Appends a hop under a marking.
#[tactic(auto, unfolding(crate::specs::Hops::hop_line))]
pub fn put_hop(
    text: &mut Text,
    plan: &Plan,
    hop: &Hop,
    marking: &Marking,
) -> Result<(), OutOfMemory>
    ensures { OnOk result (text.new ≡ text.old ++ hop_line plan.now hop.now marking.now) }
{
    put_spot(text, plan, &hop.spot)?;
    text.put(b" held ")?;
    put_marks(text, marking.marks())?;
    put_step(text, plan, &hop.step)?;
    text.put(b"\n")
}

/// Appends a line for each hop.
pub fn put_hops(
    text: &mut Text,
    plan: &Plan,
    hops: &[Hop],
    markings: &[Marking],
) -> Result<(), OutOfMemory>
    requires nodes { All (IsHopIn plan.now) hops.now }
    requires enough { length hops.now ≤ length markings.now }
    ensures { OnOk result (text.new ≡ text.old ++ hops_text plan.now hops.now markings.now) }
{
    for (i, hop) in hops.iter().enumerate() {
        put_hop(text, plan, hop, &markings[i])?;
    }
    Ok(())
}

/// A line for each hop of a route: its title, what was held prohibited there, and what happened. Each hop has its
/// marking at the same place in the list.
pub fn hops_text(
    alloc: Global,
    plan: &Plan,
    hops: &List<Hop>,
    markings: &[Marking],
) -> Result<Octets, OutOfMemory>
    requires nodes { All (IsHopIn plan.now) hops.now }
    requires enough { length hops.now ≤ length markings.now }
    ensures { IfOk result (λ text. text ≡ hops_text plan.now hops.now markings.now) }
{
    let mut text = Text::new(alloc);
    put_hops(&mut text, plan, hops.as_slice(), markings)?;
    Ok(text.into_octets())
}
