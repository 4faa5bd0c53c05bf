//! The conditions under which a spot's steps are made (Q.714 sections 2 and 5).
ghost use Rattle.std.specs.Prelude.{◌≡◌, ◌<◌, ◌++◌, ◌∷◌, [], length, map, IfOk, OnOk};
ghost use Rattle.sccp_base.specs.declared.mark.Mark.{Mark};
ghost use Rattle.plan_model.specs.Network.{Network};
ghost use Rattle.plan_model.specs.Targets.{marks};
ghost use Rattle.relay_ways.specs.Conditions.{condition};
ghost use Rattle.relay_ways.specs.Turns.{taken_turns, closed_turns, closed_row, turns_of, turn_conditions};

use crate::condition::{Condition, copied_lists, copied_marks, only_always};
use plan_model::{ClosingMarks, Node, Plan, Spot};
use plan_rules::Target;
use sccp_base::{List, Mark, OutOfMemory};
use std::alloc::Global;

/// The marks that close a target, as a list.
fn marks_of(alloc: Global, node: &Node, ssn: u8, target: &Target) -> Result<List<Mark>, OutOfMemory>
    ensures { IfOk result (λ own. own ≡ marks node.now ssn target.now) }
{
    let marks = ClosingMarks::of(node, ssn, target);
    copied_marks(alloc, marks.as_slice())
}

/// The marks that close each of the targets.
fn marks_of_each(
    alloc: Global,
    node: &Node,
    ssn: u8,
    targets: &[Target],
) -> Result<List<List<Mark>>, OutOfMemory>
    ensures { IfOk result (λ each. each ≡ map (marks node.now ssn) targets.now) }
{
    let mut each = List::new(alloc);
    for target in targets {
        each.push(marks_of(alloc, node, ssn, target)?)?;
    }
    Ok(each)
}

/// Adds the condition under which a target is taken: the marks of each earlier one, and its own.
fn add_taken(
    alloc: Global,
    found: &mut List<Condition>,
    before: &List<List<Mark>>,
    own: &List<Mark>,
) -> Result<(), OutOfMemory>
    ensures { OnOk result (found.new ≡ found.old ++ condition before.now own.now ∷ []) }
{
    let one_of = copied_lists(alloc, before.as_slice())?;
    let none_of = copied_marks(alloc, own.as_slice())?;
    found.push(Condition { one_of, none_of })?;
    Ok(())
}

/// Adds the conditions under which each of the targets is taken.
fn add_all_taken(
    alloc: Global,
    found: &mut List<Condition>,
    node: &Node,
    spot: &Spot,
    targets: &[Target],
) -> Result<(), OutOfMemory>
    ensures { (plan : Network)
        → OnOk result (found.new ≡ found.old ++ turn_conditions (taken_turns plan node.now spot.now [] 0 targets.now)) }
{
    let mut before = List::new(alloc);
    for target in targets {
        let own = marks_of(alloc, node, spot.ssn, target)?;
        add_taken(alloc, found, &before, &own)?;
        before.push(own)?;
    }
    Ok(())
}

/// Adds the condition under which all targets are closed, and the last one by this mark.
fn add_closed(
    alloc: Global,
    found: &mut List<Condition>,
    before: &List<List<Mark>>,
    free: &List<Mark>,
    mark: Mark,
) -> Result<(), OutOfMemory>
    ensures { OnOk result (found.new ≡ found.old ++ condition (before.now ++ (mark ∷ []) ∷ []) free.now ∷ []) }
{
    let mut one_of = copied_lists(alloc, before.as_slice())?;
    let mut one = List::new(alloc);
    one.push(mark)?;
    one_of.push(one)?;
    let none_of = copied_marks(alloc, free.as_slice())?;
    found.push(Condition { one_of, none_of })?;
    Ok(())
}

/// Adds those conditions for each of the last target's marks.
fn add_each_closed(
    alloc: Global,
    found: &mut List<Condition>,
    before: &List<List<Mark>>,
    marks: &[Mark],
) -> Result<(), OutOfMemory>
    ensures { OnOk result (found.new ≡ found.old ++ turn_conditions (closed_turns before.now [] marks.now)) }
{
    let mut free = List::new(alloc);
    for mark in marks {
        add_closed(alloc, found, before, &free, *mark)?;
        free.push(*mark)?;
    }
    Ok(())
}

/// Adds the conditions under which all targets are closed.
fn add_all_closed(
    alloc: Global,
    found: &mut List<Condition>,
    node: &Node,
    ssn: u8,
    targets: &[Target],
) -> Result<(), OutOfMemory>
    ensures { OnOk result (found.new ≡ found.old ++ turn_conditions (closed_row node.now ssn [] targets.now)) }
{
    match targets.split_last() {
        Some((last, earlier)) => {
            let before = marks_of_each(alloc, node, ssn, earlier)?;
            let marks = ClosingMarks::of(node, ssn, last);
            add_each_closed(alloc, found, &before, marks.as_slice())
        }
        None => Ok(()),
    }
}

/// The conditions of the turns that a row with these targets has.
fn of_targets(
    alloc: Global,
    node: &Node,
    spot: &Spot,
    targets: &[Target],
) -> Result<List<Condition>, OutOfMemory>
    ensures { (plan : Network) → IfOk result (λ found. found ≡ turn_conditions
        (taken_turns plan node.now spot.now [] 0 targets.now ++ closed_row node.now spot.now.ssn [] targets.now)) }
{
    let mut found = List::new(alloc);
    add_all_taken(alloc, &mut found, node, spot, targets)?;
    add_all_closed(alloc, &mut found, node, spot.ssn, targets)?;
    Ok(found)
}

/// The conditions under which the steps of a spot are made, in the order of its turns.
pub(crate) fn turn_conditions(
    alloc: Global,
    plan: &Plan,
    spot: &Spot,
) -> Result<List<Condition>, OutOfMemory>
    requires { spot.now.node < length plan.now.nodes }
    ensures { IfOk result (λ found. found ≡ turn_conditions (turns_of plan.now spot.now)) }
{
    let node = &plan.nodes().as_slice()[usize::from(spot.node)];
    match node.table.find(spot.selector, spot.ssn, &spot.digits) {
        Some(place) => of_targets(alloc, node, spot, node.table.row(place).targets()),
        None => only_always(alloc),
    }
}
