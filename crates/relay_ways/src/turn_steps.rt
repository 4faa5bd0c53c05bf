//! The steps of a spot over all markings (Q.714 section 2).
ghost use Rattle.std.specs.Prelude.{◌≡◌, ◌<◌, ◌≤◌, ◌++◌, ◌∷◌, [], length, map, IfOk, OnOk};
ghost use Rattle.std.specs.List.{All};
ghost use Rattle.sccp_base.specs.declared.mark.Mark.{Mark};
ghost use Rattle.plan_model.specs.Network.{Network, LeadsOn};
ghost use Rattle.plan_model.specs.Routes.{StaysIn};
ghost use Rattle.plan_model.specs.declared.hop.Step.{Step};
ghost use Rattle.relay_ways.specs.Candidates.{turn_steps, taken_steps, closed_step};
ghost use Rattle.relay_ways.specs.Turns.{taken_turns, closed_row};

use plan_model::{ClosingMarks, Node, Plan, Spot, Step, cause_of, led};
use plan_rules::Target;
use sccp_base::{List, Mark, OutOfMemory};
use std::alloc::Global;

/// Adds a step that stays in the plan.
fn add_step(found: &mut List<Step>, plan: &Plan, step: Step) -> Result<(), OutOfMemory>
    requires { StaysIn plan.now step }
    ensures value { OnOk result (found.new ≡ found.old ++ step ∷ []) }
    ensures stay { All (StaysIn plan.now) found.old → OnOk result (All (StaysIn plan.now) found.new) }
{
    found.push(step)?;
    Ok(())
}

/// Adds the step of each target if it is taken.
fn add_taken(
    found: &mut List<Step>,
    plan: &Plan,
    node: &Node,
    spot: &Spot,
    targets: &[Target],
) -> Result<(), OutOfMemory>
    requires lead { All (LeadsOn plan.now.nodes node.now) targets.now }
    requires few { length targets.now ≤ 8 }
    ensures value { OnOk result (found.new ≡ found.old ++ taken_steps plan.now node.now spot.now 0 targets.now) }
    ensures stay { All (StaysIn plan.now) found.old → OnOk result (All (StaysIn plan.now) found.new) }
{
    for (place, target) in targets.iter().enumerate() {
        add_step(found, plan, led(plan, node, spot, place as u8, target))?;
    }
    Ok(())
}

/// Adds the step if all targets are closed, and the last one by this mark.
fn add_closed_step(alloc: Global, found: &mut List<Step>, mark: &Mark) -> Result<(), OutOfMemory>
    ensures value { OnOk result (found.new ≡ found.old ++ closed_step mark.now ∷ []) }
    ensures stay { (plan : Network) → All (StaysIn plan) found.old → OnOk result (All (StaysIn plan) found.new) }
{
    found.push(Step::Blocked {
        cause: cause_of(mark),
        marks: List::new(alloc),
    })?;
    Ok(())
}

/// Adds the step for each mark that may close the last target.
fn add_closed(alloc: Global, found: &mut List<Step>, marks: &[Mark]) -> Result<(), OutOfMemory>
    ensures value { OnOk result (found.new ≡ found.old ++ map closed_step marks.now) }
    ensures stay { (plan : Network) → All (StaysIn plan) found.old → OnOk result (All (StaysIn plan) found.new) }
{
    for mark in marks {
        add_closed_step(alloc, found, mark)?;
    }
    Ok(())
}

/// Adds the steps if all targets are closed.
fn add_all_closed(
    alloc: Global,
    found: &mut List<Step>,
    node: &Node,
    ssn: u8,
    targets: &[Target],
) -> Result<(), OutOfMemory>
    ensures value { OnOk result (found.new ≡ found.old ++ map (λ t. t.step) (closed_row node.now ssn [] targets.now)) }
    ensures stay { (plan : Network) → All (StaysIn plan) found.old → OnOk result (All (StaysIn plan) found.new) }
{
    match targets.split_last() {
        Some((last, _)) => {
            let marks = ClosingMarks::of(node, ssn, last);
            add_closed(alloc, found, marks.as_slice())
        }
        None => Ok(()),
    }
}

/// The steps that a row with these targets gives.
fn of_targets(
    alloc: Global,
    plan: &Plan,
    node: &Node,
    spot: &Spot,
    targets: &[Target],
) -> Result<List<Step>, OutOfMemory>
    requires lead { All (LeadsOn plan.now.nodes node.now) targets.now }
    requires few { length targets.now ≤ 8 }
    ensures value { IfOk result (λ steps. steps ≡ map (λ t. t.step)
        (taken_turns plan.now node.now spot.now [] 0 targets.now ++ closed_row node.now spot.now.ssn [] targets.now)) }
    ensures stay { IfOk result (All (StaysIn plan.now)) }
{
    let mut found = List::new(alloc);
    add_taken(&mut found, plan, node, spot, targets)?;
    add_all_closed(alloc, &mut found, node, spot.ssn, targets)?;
    Ok(found)
}

/// The one step of a spot without a row.
fn only_no_row(alloc: Global, cause: u8) -> Result<List<Step>, OutOfMemory>
    ensures value { IfOk result (λ steps. steps ≡ Step.NoRow cause ∷ []) }
    ensures stay { (plan : Network) → IfOk result (All (StaysIn plan)) }
{
    let mut found = List::new(alloc);
    found.push(Step::NoRow { cause })?;
    Ok(found)
}

/// The steps that the spot's node makes of it under all markings, in the order of its turns, also those that no marking allows.
pub(crate) fn turn_steps(alloc: Global, plan: &Plan, spot: &Spot) -> Result<List<Step>, OutOfMemory>
    requires { spot.now.node < length plan.now.nodes }
    ensures value { IfOk result (λ steps. steps ≡ turn_steps plan.now spot.now) }
    ensures stay { IfOk result (All (StaysIn plan.now)) }
{
    let node = &plan.nodes().as_slice()[usize::from(spot.node)];
    match node.table.find(spot.selector, spot.ssn, &spot.digits) {
        Some(place) => of_targets(alloc, plan, node, spot, node.table.row(place).targets()),
        None => only_no_row(alloc, if node.table.has(spot.selector) { 1 } else { 0 }),
    }
}
