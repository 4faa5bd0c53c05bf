//! What the titles of a class use, and where they are sent on to.
ghost use Rattle.std.specs.Prelude.{◌≡◌, ◌+◌, ◌<◌, ℕ, None, Err, IsTrue, IsSome, length, OnOk};
ghost use Rattle.plan_classes.specs.Titles.{Titles};
ghost use Rattle.plan_classes.specs.Classes.{class_row, Reaches};
ghost use Rattle.plan_unused.specs.declared.halt.Halt.TheVariants as halts;
ghost use Rattle.plan_unused.specs.Fitting.{HasFitting};
ghost use Rattle.plan_unused.specs.Meets.{MeetsAtLeast};
ghost use Rattle.plan_unused.specs.Walks.{has_relay, gap_in, IsSeen, IsMore, IsRankedBy, AreRanks, Grows, MayLook};
ghost use Rattle.plan_unused.specs.Walks.{IsStop, IsFollowed, IsSettled};

use crate::entering::enter;
use crate::first_hops::FirstHops;
use crate::fitting::fitting_by;
use crate::halt::Halt;
use crate::rows::class_node;
use crate::seen::Seen;
use crate::stop::Stop;
use crate::survey::{RowPlace, TargetPlace};
use plan_classes::{Class, reaches_by, sample};
use plan_model::Plan;
use sccp_base::OutOfMemory;
use std::alloc::Global;

/// The last hop at which a title is translated, counted from 0.
const LAST_HOP: u8 = 13;

/// Notes what the titles of a stop use, and puts what they are sent on as at the next hop, if there is one.
pub(crate) fn look(
    alloc: Global,
    plan: &Plan,
    class: &Class,
    depth: u8,
    met: &mut FirstHops,
    seen: &mut Seen,
) -> Result<(), Halt>
    requires may { MayLook plan.now depth class.now }
    requires ranks { AreRanks plan.now (depth + 1) met.old }
    requires seen { IsSeen plan.now seen.old }
    ensures grows { OnOk result (Grows plan.now (depth + 1) met.old met.new) }
    ensures seen { OnOk result (IsSeen plan.now seen.new) }
    ensures more { OnOk result (IsMore seen.old seen.new) }
    ensures settled { OnOk result (IsSettled plan.now seen.new met.new class.now depth) }
    ensures wide { result ≡ Err halts.Wide → MeetsAtLeast plan.now plan.now.limits.classes }
{
    let node = class_node(plan, class);
    match node
        .table
        .find(class.selector(), class.ssn(), &sample(class))
    {
        Some(place) => {
            let stop = Stop {
                class,
                row: node.table.row(place),
                place: RowPlace {
                    node: class.node(),
                    row: place as u32,
                },
                depth,
            };
            look_row(alloc, plan, &stop, met, seen)
        }
        None => Ok(note_gap(plan, class, seen)?),
    }
}

/// Notes a relay, and a title of a class without a row there.
fn note_gap(plan: &Plan, class: &Class, seen: &mut Seen) -> Result<(), OutOfMemory>
    requires may { (depth : ℕ) × MayLook plan.now depth class.now }
    requires row { class_row plan.now class.now ≡ None }
    requires seen { IsSeen plan.now seen.old }
    ensures seen { OnOk result (IsSeen plan.now seen.new) }
    ensures more { OnOk result (IsMore seen.old seen.new) }
    ensures relay { OnOk result (IsTrue (has_relay seen.new class.now.node)) }
    ensures gap { OnOk result (IsSome (gap_in seen.new class.now.cover)) }
{
    seen.note_relay(plan, class.node())?;
    seen.note_gap(plan, class.cover(), class.spot_of(&sample(class)))
}

/// As `look`, of a class with a row.
fn look_row(
    alloc: Global,
    plan: &Plan,
    stop: &Stop<'_>,
    met: &mut FirstHops,
    seen: &mut Seen,
) -> Result<(), Halt>
    requires stop { IsStop plan.now stop.now }
    requires ranks { AreRanks plan.now (stop.now.depth + 1) met.old }
    requires seen { IsSeen plan.now seen.old }
    ensures grows { OnOk result (Grows plan.now (stop.now.depth + 1) met.old met.new) }
    ensures seen { OnOk result (IsSeen plan.now seen.new) }
    ensures more { OnOk result (IsMore seen.old seen.new) }
    ensures settled { OnOk result (IsSettled plan.now seen.new met.new stop.now.class.now stop.now.depth) }
    ensures wide { result ≡ Err halts.Wide → MeetsAtLeast plan.now plan.now.limits.classes }
{
    seen.note_relay(plan, stop.place.node)?;
    seen.note_row(plan, stop.place)?;
    look_targets(alloc, plan, stop, met, seen)
}

/// Notes which targets of a stop's row its titles take, and puts what they are sent on as.
fn look_targets(
    alloc: Global,
    plan: &Plan,
    stop: &Stop<'_>,
    met: &mut FirstHops,
    seen: &mut Seen,
) -> Result<(), Halt>
    requires stop { IsStop plan.now stop.now }
    requires ranks { AreRanks plan.now (stop.now.depth + 1) met.old }
    requires seen { IsSeen plan.now seen.old }
    ensures grows { OnOk result (Grows plan.now (stop.now.depth + 1) met.old met.new) }
    ensures seen { OnOk result (IsSeen plan.now seen.new) }
    ensures more { OnOk result (IsMore seen.old seen.new) }
    ensures followed { OnOk result ((t : ℕ)
        → IsFollowed plan.now seen.new met.new stop.now.class.now stop.now.depth stop.now.place.row t) }
    ensures wide { result ≡ Err halts.Wide → MeetsAtLeast plan.now plan.now.limits.classes }
{
    for target in 0..stop.row.target_count() {
        look_target(alloc, plan, stop, target, met, seen)?;
    }
    Ok(())
}

/// As `look_targets`, of one target.
fn look_target(
    alloc: Global,
    plan: &Plan,
    stop: &Stop<'_>,
    target: u8,
    met: &mut FirstHops,
    seen: &mut Seen,
) -> Result<(), Halt>
    requires stop { IsStop plan.now stop.now }
    requires target { target < length stop.now.row.now.targets }
    requires ranks { AreRanks plan.now (stop.now.depth + 1) met.old }
    requires seen { IsSeen plan.now seen.old }
    ensures grows { OnOk result (Grows plan.now (stop.now.depth + 1) met.old met.new) }
    ensures seen { OnOk result (IsSeen plan.now seen.new) }
    ensures more { OnOk result (IsMore seen.old seen.new) }
    ensures followed { OnOk result (IsFollowed plan.now seen.new met.new stop.now.class.now stop.now.depth stop.now.place.row target) }
    ensures wide { result ≡ Err halts.Wide → MeetsAtLeast plan.now plan.now.limits.classes }
{
    if !reaches_by(plan, stop.class, stop.row, target) {
        return Ok(());
    }
    seen.note_target(
        plan,
        TargetPlace {
            node: stop.place.node,
            row: stop.place.row,
            target,
        },
    )?;
    follow(alloc, plan, stop, target, met)
}

/// Puts what the titles of a stop are sent on as under a reached target, unless this is the last hop.
fn follow(
    alloc: Global,
    plan: &Plan,
    stop: &Stop<'_>,
    target: u8,
    met: &mut FirstHops,
) -> Result<(), Halt>
    requires stop { IsStop plan.now stop.now }
    requires target { target < length stop.now.row.now.targets }
    requires reached { Reaches plan.now stop.now.class.now target }
    requires ranks { AreRanks plan.now (stop.now.depth + 1) met.old }
    ensures grows { OnOk result (Grows plan.now (stop.now.depth + 1) met.old met.new) }
    ensures onward { OnOk result (stop.now.depth < 13 → (next : Titles) → HasFitting plan.now stop.now.class.now target next
        → IsRankedBy met.new next (stop.now.depth + 1)) }
    ensures wide { result ≡ Err halts.Wide → MeetsAtLeast plan.now plan.now.limits.classes }
{
    if stop.depth >= LAST_HOP {
        return Ok(());
    }
    match fitting_by(plan, stop.class, stop.row, target) {
        Some(next) => enter(alloc, plan, &next, stop.depth + 1, met),
        None => Ok(()),
    }
}
