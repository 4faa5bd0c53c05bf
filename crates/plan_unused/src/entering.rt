//! Classes that are met at a hop.
ghost use Rattle.std.specs.Prelude.{◌≡◌, ◌<◌, ℕ, None, Some, Err, if◌then◌else◌, OnOk};
ghost use Rattle.std.specs.Ordering.{is_eq};
ghost use Rattle.plan_classes.specs.Titles.{Titles};
ghost use Rattle.plan_classes.specs.Classes.{Decided};
ghost use Rattle.plan_check.specs.Ranking.{rank_in, class_cmp};
ghost use Rattle.plan_unused.specs.declared.halt.Halt.TheVariants as halts;
ghost use Rattle.plan_unused.specs.Meets.{Meets, MeetsAtLeast};
ghost use Rattle.plan_unused.specs.Walks.{IsRankedBy, AreRanks, KeepsPlaces, Grows, MayEnter};

use crate::first_hops::FirstHops;
use crate::halt::Halt;
use plan_classes::{Class, decided, parts};
use plan_model::Plan;
use std::alloc::Global;

/// Puts a class at a hop, and its parts, too, if it is undecided. A class that was met before is not put again.
#[cycle(enter)]
pub(crate) fn enter(
    alloc: Global,
    plan: &Plan,
    class: &Class,
    depth: u8,
    met: &mut FirstHops,
) -> Result<(), Halt>
    requires may { MayEnter plan.now depth class.now }
    requires ranks { AreRanks plan.now depth met.old }
    ensures grows { OnOk result (Grows plan.now depth met.old met.new) }
    ensures ranked { OnOk result (IsRankedBy met.new class.now depth) }
    ensures wide { result ≡ Err halts.Wide → MeetsAtLeast plan.now plan.now.limits.classes }
{
    if met.get(class).is_some() {
        return Ok(());
    }
    if decided(plan, class) {
        enter_whole(plan, class, depth, met)
    } else {
        enter_parts(alloc, plan, class, depth, met)
    }
}

/// Puts a decided class that was not met before.
fn enter_whole(plan: &Plan, class: &Class, depth: u8, met: &mut FirstHops) -> Result<(), Halt>
    requires fresh { rank_in met.old class.now ≡ None }
    requires decided { Decided plan.now class.now }
    requires may { MayEnter plan.now depth class.now }
    requires ranks { AreRanks plan.now depth met.old }
    ensures grows { OnOk result (Grows plan.now depth met.old met.new) }
    ensures ranked { OnOk result (IsRankedBy met.new class.now depth) }
    ensures wide { result ≡ Err halts.Wide → MeetsAtLeast plan.now plan.now.limits.classes }
{
    rank(plan, class, depth, met)
}

/// Puts the parts of an undecided class that was not met before.
#[cycle(enter)]
fn enter_parts(
    alloc: Global,
    plan: &Plan,
    class: &Class,
    depth: u8,
    met: &mut FirstHops,
) -> Result<(), Halt>
    requires fresh { rank_in met.old class.now ≡ None }
    requires undecided { Decided plan.now class.now → ⊥ }
    requires more { 0 < class.now.most }
    requires may { MayEnter plan.now depth class.now }
    requires ranks { AreRanks plan.now depth met.old }
    ensures grows { OnOk result (Grows plan.now depth met.old met.new) }
    ensures ranked { OnOk result (IsRankedBy met.new class.now depth) }
    ensures wide { result ≡ Err halts.Wide → MeetsAtLeast plan.now plan.now.limits.classes }
{
    let parts = parts(alloc, class)?;
    for part in parts.as_slice() {
        enter(alloc, plan, part, depth, met)?;
    }
    rank(plan, class, depth, met)
}

/// Gives a class its rank.
fn rank(plan: &Plan, class: &Class, depth: u8, met: &mut FirstHops) -> Result<(), Halt>
    requires ranks { AreRanks plan.now depth met.old }
    ensures puts { OnOk result ((c : Titles) → rank_in met.new c
        ≡ (if is_eq (class_cmp class.now c) then Some depth else rank_in met.old c)) }
    ensures places { OnOk result (KeepsPlaces met.old met.new) }
    ensures wide { result ≡ Err halts.Wide → MeetsAtLeast plan.now plan.now.limits.classes }
{
    met.put(*class, depth, plan.limits().classes as usize)
}
