//! The answer on two plans.
ghost use Rattle.std.specs.Prelude.{◌≡◌, ◌↔◌, ◌+◌, ℕ, [], length, IfOk, Err};
ghost use Rattle.plan_model.specs.Network.{IsPlan};
ghost use Rattle.plan_model.specs.SameNodes.{SameNodes};
ghost use Rattle.plan_change.specs.declared.change_fault.ChangeFault.TheVariants as faults;
ghost use Rattle.plan_change.specs.Changes.{IsLawfulChange, IsLawfulUnder};
ghost use Rattle.plan_change.specs.Walks.{AreLayers, EndsWalk, stops_at};

use crate::answer::Change;
use crate::carrying::{carry_all, stop_at};
use crate::change_fault::ChangeFault;
use crate::halt::Halt;
use crate::plans::Plans;
use crate::stop::Stop;
use crate::turn::vouch;
use crate::walking::{Walk, least_way, walk_on};
use crate::way::Way;
use crate::witness::broken;
use plan_check::Accepted;
use plan_mixed::Holding;
use plan_model::{Plan, have_same_nodes};
use sccp_base::{List, OutOfMemory};
use std::alloc::Global;

/// Whether two accepted plans may be mixed. Then each title that both cover is blocked, or reaches a place that all its covers
/// in both plans allow. That holds whichever of the two plans each relay on its route has, and whatever it has prohibited.
/// `Broken` shows a title for which it does not hold. `TooWide` is given only if the two plans reach at least as many classes as
/// the limit of the old plan says.
/// The fault is `OtherNodes` exactly if names, point codes, subsystems and concerned points, in order, are not the same.
pub fn change(alloc: Global, old: &Accepted, new: &Accepted) -> Result<Change, ChangeFault>
    ensures lawful { IfOk result (IsLawfulChange old.now.plan new.now.plan) }
    ensures same { IfOk result (λ _. SameNodes old.now.plan new.now.plan) }
    ensures other { (result ≡ Err faults.OtherNodes) ↔ (SameNodes old.now.plan new.now.plan → ⊥) }
{
    let old = old.plan();
    let new = new.plan();
    if !have_same_nodes(old, new) {
        return Err(ChangeFault::OtherNodes);
    }
    Ok(mixture(alloc, old, new, &[])?)
}

/// The answer on two plans of the same nodes while each relay holds one of the plans that it may hold: either, if nothing is said
/// of it. `TooWide` is given only if the two plans reach at least as many classes as the limit of the old plan says.
pub fn mixture(
    alloc: Global,
    old: &Plan,
    new: &Plan,
    may: &[Holding],
) -> Result<Change, OutOfMemory>
    requires same { SameNodes old.now new.now }
    ensures { IfOk result (IsLawfulUnder may.now old.now new.now) }
{
    let old = sound(old);
    let new = sound(new);
    by_walk(alloc, &Plans { old, new, may })
}

/// The plan itself, which is one by its nodes.
fn sound(plan: &Plan) -> &Plan
    ensures value { result.now ≡ plan.now }
    ensures sound { IsPlan plan.now }
{
    plan.nodes();
    plan
}

/// The answer on two plans of as many nodes.
fn by_walk(alloc: Global, plans: &Plans<'_>) -> Result<Change, OutOfMemory>
    requires same { length plans.now.old.now.nodes ≡ length plans.now.new.now.nodes }
    requires old { IsPlan plans.now.old.now }
    requires new { IsPlan plans.now.new.now }
    ensures { IfOk result (IsLawfulUnder plans.now.may.now plans.now.old.now plans.now.new.now) }
{
    match walk_on(alloc, plans) {
        Ok(Walk::Through(layers)) => kept(alloc, plans, layers.as_slice()),
        Ok(Walk::Bad(layers, place, way)) => {
            break_by(alloc, plans, layers.as_slice(), place, way)
        }
        Err(Halt::Wide) => Ok(Change::TooWide),
        Err(Halt::OutOfMemory) => Err(OutOfMemory),
    }
}

/// The answer if the walk reached a hop without stops.
fn kept(alloc: Global, plans: &Plans<'_>, layers: &[List<Stop>]) -> Result<Change, OutOfMemory>
    requires same { length plans.now.old.now.nodes ≡ length plans.now.new.now.nodes }
    requires old { IsPlan plans.now.old.now }
    requires new { IsPlan plans.now.new.now }
    requires layers { AreLayers plans.now.may.now plans.now.old.now plans.now.new.now layers.now }
    requires last { (hop : ℕ) → length layers.now ≡ hop + 1 → stops_at layers.now hop ≡ [] }
    ensures { IfOk result (IsLawfulUnder plans.now.may.now plans.now.old.now plans.now.new.now) }
{
    let bound = layers.len() - 1;
    if bound == 0 {
        return Ok(Change::Kept {
            bound: 0,
            spot: None,
            turns: List::new(alloc),
        });
    }
    let way = least_way(alloc, stop_at(layers, bound - 1, 0))?;
    let Way { spot, turns } = carry_all(alloc, plans, layers, bound - 1, 0, way)?;
    vouch(turns.as_slice());
    Ok(Change::Kept {
        bound: bound as u8,
        spot: Some(spot),
        turns,
    })
}

/// The answer if a title of a stop of the last hop has a bad end, or that hop is the fifteenth.
fn break_by(
    alloc: Global,
    plans: &Plans<'_>,
    layers: &[List<Stop>],
    place: usize,
    way: Way,
) -> Result<Change, OutOfMemory>
    requires same { length plans.now.old.now.nodes ≡ length plans.now.new.now.nodes }
    requires old { IsPlan plans.now.old.now }
    requires new { IsPlan plans.now.new.now }
    requires layers { AreLayers plans.now.may.now plans.now.old.now plans.now.new.now layers.now }
    requires ends { EndsWalk plans.now.may.now plans.now.old.now plans.now.new.now layers.now place way }
    ensures { IfOk result (IsLawfulUnder plans.now.may.now plans.now.old.now plans.now.new.now) }
{
    let hop = layers.len() - 1;
    let number = stop_at(layers, hop, place).class.cover();
    let Way { spot, turns } = carry_all(alloc, plans, layers, hop, place, way)?;
    broken(alloc, plans, number, &spot, turns)
}
