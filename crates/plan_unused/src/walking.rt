//! The walk from hop to hop.
ghost use Rattle.std.specs.Prelude.{◌≡◌, ◌+◌, ◌<◌, length, Err, IfOk, OnOk};
ghost use Rattle.plan_model.specs.Network.{IsPlan};
ghost use Rattle.plan_classes.specs.Titles.{Titles};
ghost use Rattle.plan_classes.specs.Classes.{Decided};
ghost use Rattle.plan_unused.specs.declared.halt.Halt.TheVariants as halts;
ghost use Rattle.plan_unused.specs.declared.seen.Seen.{Seen};
ghost use Rattle.plan_unused.specs.Meets.{MeetsAtLeast};
ghost use Rattle.plan_unused.specs.Walks.{IsSeen, IsMore, IsWhole, IsWalk, IsSettled, IsEntry, AreRanks, Grows, MayEnter};

use crate::entering::enter;
use crate::first_hops::FirstHops;
use crate::halt::Halt;
use crate::looking::look;
use crate::seen::Seen;
use plan_classes::{Class, decided, start};
use plan_model::Plan;
use std::alloc::Global;

/// How many hops a title makes at most.
const MOST_HOPS: u8 = 14;

/// What covered titles use, exactly.
pub(crate) fn walk(alloc: Global, plan: &Plan) -> Result<Seen, Halt>
    ensures seen { IfOk result (IsSeen plan.now) }
    ensures whole { IfOk result (IsWhole plan.now) }
    ensures wide { result ≡ Err halts.Wide → MeetsAtLeast plan.now plan.now.limits.classes }
{
    let mut seen = Seen::new(alloc);
    let mut met = first_hop(alloc, plan)?;
    let mut first = 0;
    for depth in 0..MOST_HOPS {
        first = next_hop(alloc, plan, depth, first, &mut met, &mut seen)?;
    }
    Ok(seen)
}

/// The titles of the covers, put at the first hop.
fn first_hop(alloc: Global, plan: &Plan) -> Result<FirstHops, Halt>
    ensures walk { IfOk result (λ met. (seen : Seen) → IsSeen plan.now seen → IsWalk plan.now 0 0 met seen) }
    ensures sound { IsPlan plan.now }
    ensures wide { result ≡ Err halts.Wide → MeetsAtLeast plan.now plan.now.limits.classes }
{
    let mut met = FirstHops::new(alloc);
    let count = plan.covers().as_slice().len() as u32;
    for number in 0..count {
        enter(alloc, plan, &start(plan, number), 0, &mut met)?;
    }
    Ok(met)
}

/// Looks at the stops of a hop, the decided classes that were first met at it, from the first place on. What they are sent on as is
/// put at the next hop, and the place of the first class of that one is the result.
fn next_hop(
    alloc: Global,
    plan: &Plan,
    depth: u8,
    first: usize,
    met: &mut FirstHops,
    seen: &mut Seen,
) -> Result<usize, Halt>
    requires sound { IsPlan plan.now }
    requires depth { depth < 14 }
    requires walk { IsWalk plan.now depth first met.old seen.old }
    ensures walk { IfOk result (λ next. IsWalk plan.now (depth + 1) next met.new seen.new) }
    ensures wide { result ≡ Err halts.Wide → MeetsAtLeast plan.now plan.now.limits.classes }
{
    let end = met.len();
    for place in first..end {
        look_at(alloc, plan, place, depth, met, seen)?;
    }
    Ok(end)
}

/// As `look`, of the class at a place of the table, if it was first met at this hop.
fn look_at(
    alloc: Global,
    plan: &Plan,
    place: usize,
    depth: u8,
    met: &mut FirstHops,
    seen: &mut Seen,
) -> Result<(), Halt>
    requires sound { IsPlan plan.now }
    requires depth { depth < 14 }
    requires place { place < length met.old }
    requires may { (c : Titles) → IsEntry met.old place c depth → MayEnter plan.now depth c }
    requires ranks { AreRanks plan.now (depth + 1) met.old }
    requires seen { IsSeen plan.now seen.old }
    ensures grows { OnOk result (Grows plan.now (depth + 1) met.old met.new) }
    ensures seen { OnOk result (IsSeen plan.now seen.new) }
    ensures more { OnOk result (IsMore seen.old seen.new) }
    ensures settled { OnOk result ((c : Titles) → IsEntry met.old place c depth → Decided plan.now c
        → IsSettled plan.now seen.new met.new c depth) }
    ensures wide { result ≡ Err halts.Wide → MeetsAtLeast plan.now plan.now.limits.classes }
{
    let (class, rank) = met.at(place);
    if rank == depth {
        look_if_stop(alloc, plan, &class, depth, met, seen)
    } else {
        Ok(())
    }
}

/// As `look`, of a class that may be undecided. Such a class is no stop, and its parts were put at a hop by themselves.
fn look_if_stop(
    alloc: Global,
    plan: &Plan,
    class: &Class,
    depth: u8,
    met: &mut FirstHops,
    seen: &mut Seen,
) -> Result<(), Halt>
    requires sound { IsPlan plan.now }
    requires depth { depth < 14 }
    requires may { MayEnter plan.now depth class.now }
    requires ranks { AreRanks plan.now (depth + 1) met.old }
    requires seen { IsSeen plan.now seen.old }
    ensures grows { OnOk result (Grows plan.now (depth + 1) met.old met.new) }
    ensures seen { OnOk result (IsSeen plan.now seen.new) }
    ensures more { OnOk result (IsMore seen.old seen.new) }
    ensures settled { OnOk result (Decided plan.now class.now → IsSettled plan.now seen.new met.new class.now depth) }
    ensures wide { result ≡ Err halts.Wide → MeetsAtLeast plan.now plan.now.limits.classes }
{
    if decided(plan, class) {
        look(alloc, plan, class, depth, met, seen)
    } else {
        Ok(())
    }
}
