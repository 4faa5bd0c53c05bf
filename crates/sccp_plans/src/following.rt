//! The command that follows one title under empty markings.
ghost use Rattle.std.specs.Prelude.{◌≡◌, ◌<◌, IfOk, length};
ghost use Rattle.plan_model.specs.Network.{IsPlan};
ghost use Rattle.sccp_work.specs.Ending.{Works};
ghost use Rattle.sccp_work.specs.Moment.{moment};
ghost use Rattle.sccp_plans.specs.Route.{unmarked, hops_from, spot_at, route_text, route_work};

use crate::start::Start;
use plan_model::{Plan, Spot};
use sccp_base::{Marking, Octets, OutOfMemory};
use sccp_io::{Files, Sink};
use sccp_report::hops_text;
use sccp_work::{PlanPath, Status, Stop, print_last, with_plan};
use std::alloc::Global;

/// The line on a name that no node has.
pub const UNKNOWN_NODE: &[u8] = b"unknown node\n";

/// How many hops are followed.
const MOST_HOPS: u8 = 15;

/// Prints the hops of a title under the plan of a file.
pub fn route<F: Files, K: Sink>(
    alloc: Global,
    file: &PlanPath<'_>,
    start: &Start,
    files: &mut F,
    out: &mut K,
) -> Result<Status, Stop>
    ensures { Works (route_work file.now start.now) result
        (moment F.contents F.sound F.faults K.taken K.faults files.old out.old)
        (moment F.contents F.sound F.faults K.taken K.faults files.new out.new) }
{
    let plan = with_plan(alloc, file, files, out)?;
    let text = route_text(alloc, &plan, start);
    drop(plan);
    let text = text?;
    print_last(out, text.as_slice(), Status::Done)
}

/// The hops from the node of the start, or the line that no node has its name.
#[tactic(auto, unfolding(crate::specs::Texts::unknown_node))]
fn route_text(alloc: Global, plan: &Plan, start: &Start) -> Result<Octets, OutOfMemory>
    requires { IsPlan plan.now }
    ensures { IfOk result (λ text. text ≡ route_text plan.now start.now) }
{
    match plan.node_named(&start.node) {
        Some(node) => hops_from(alloc, plan, spot_at(start, node)),
        None => Ok(Octets::from_vec(Vec::from_slice(alloc, UNKNOWN_NODE)?)),
    }
}

/// A title at a node.
fn spot_at(start: &Start, node: u8) -> Spot
    ensures { result ≡ spot_at start.now node }
{
    Spot {
        node,
        selector: start.selector,
        ssn: start.ssn,
        digits: start.digits,
    }
}

/// Up to fifteen hops of a title from its node.
fn hops_from(alloc: Global, plan: &Plan, spot: Spot) -> Result<Octets, OutOfMemory>
    requires sound { IsPlan plan.now }
    requires node { spot.node < length plan.now.nodes }
    ensures { IfOk result (λ text. text ≡ hops_from plan.now spot) }
{
    let markings = unmarked(alloc)?;
    let held = markings.as_slice();
    let hops = plan_model::route(alloc, plan, spot, held)?;
    hops_text(alloc, plan, &hops, held)
}

/// A marking that holds nothing, for each hop.
#[tactic(auto, unfolding(crate::specs::Route::unmarked))]
fn unmarked(alloc: Global) -> Result<Vec<Marking>, OutOfMemory>
    ensures { IfOk result (λ markings. markings.items ≡ unmarked) }
{
    let mut markings = Vec::new(alloc);
    for _ in 0..MOST_HOPS {
        markings.push(Marking::new(alloc))?;
    }
    Ok(markings)
}
