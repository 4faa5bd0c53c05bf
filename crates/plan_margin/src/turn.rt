//! What a set of outages says of one target.
ghost use Rattle.std.specs.Prelude.{◌≡◌, ◌<◌, ◌≤◌, length, Some};
ghost use Rattle.std.specs.List.{find};
ghost use Rattle.sccp_base.specs.Marks.{holds};
ghost use Rattle.plan_classes.specs.Classes.{class_row};
ghost use Rattle.plan_model.specs.Steps.{marks as closing_marks};
ghost use Rattle.plan_margin.specs.Searching.{IsTurn, IsTurnBy, is_free};

use crate::outage_set::OutageSet;
use plan_classes::Class;
use plan_model::{ClosingMarks, Node, Plan};
use plan_rules::{Row, Target};
use sccp_base::{Mark, Marking};

/// What a set of outages says of the target at a place of a row, if the targets before it are closed.
#[derive(Clone, Copy)]
pub(crate) enum Turn {
    /// There is no target at the place.
    Past,
    /// The target is closed in each outage.
    Lost,
    /// The target is open in each outage.
    Taken,
    /// The target is closed in those outages in which this mark is held.
    Either(Mark),
}

/// What the set says of the target at a place of the class's row.
pub(crate) fn turn_at(plan: &Plan, class: &Class, row: &Row, place: u8, set: &OutageSet) -> Turn
    requires node { class.now.node < length plan.now.nodes }
    requires row { class_row plan.now class.now ≡ Some row.now }
    ensures turn { IsTurn plan.now class.now place set.now result }
    ensures few { length row.now.targets ≤ 8 }
{
    let node = &plan.nodes().as_slice()[usize::from(class.node())];
    match row.targets().get(usize::from(place)) {
        None => Turn::Past,
        Some(target) => turn_of(plan, node, class.ssn(), target, set),
    }
}

/// What the set says of a target of the node, for titles of this subsystem number.
fn turn_of(plan: &Plan, node: &Node, ssn: u8, target: &Target, set: &OutageSet) -> Turn
    ensures { IsTurnBy plan.now (closing_marks node.now ssn target.now) set.now result }
{
    let marks = ClosingMarks::of(node, ssn, target);
    turn_by(plan, marks.as_slice(), set)
}

/// What the set says of a target that these marks close.
fn turn_by(plan: &Plan, marks: &[Mark], set: &OutageSet) -> Turn
    ensures { IsTurnBy plan.now marks.now set.now result }
{
    if first_held(&set.lost, marks).is_some() {
        return Turn::Lost;
    }
    match first_free(plan, marks, set) {
        Some(mark) => Turn::Either(mark),
        None => Turn::Taken,
    }
}

/// The first of these marks that is prohibited.
fn first_held(marking: &Marking, marks: &[Mark]) -> Option<Mark>
    ensures { result ≡ find (holds marking.now) marks.now }
{
    marks.iter().copied().find(|mark| marking.holds(*mark))
}

/// The first of these marks that is held in some outages of the set, if it is not held in all of them.
fn first_free(plan: &Plan, marks: &[Mark], set: &OutageSet) -> Option<Mark>
    ensures { result ≡ find (is_free plan.now set.now) marks.now }
{
    marks.iter().copied().find(|mark| is_free(plan, mark, set))
}

fn is_free(plan: &Plan, mark: &Mark, set: &OutageSet) -> bool
    ensures { result ≡ is_free plan.now set.now mark.now }
{
    set.kinds.counts(plan, mark) && !set.up.holds(*mark)
}
