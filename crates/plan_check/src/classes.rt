//! The tests of the classes of a table.
ghost use Rattle.std.specs.Prelude.{◌≡◌, ◌<◌, ◌≤◌, length, IsTrue, ◌↔◌, OnOk, IfErr, IsSome, Some};
ghost use Rattle.std.specs.List.{All};
ghost use Rattle.plan_classes.specs.Classes.{Decided, class_row};
ghost use Rattle.plan_check.specs.Ranking.{rank_in};
ghost use Rattle.plan_check.specs.Ranked.{RanksUpTo, IsRankedClass, IsRanked};
ghost use Rattle.plan_check.specs.Checks.{NextIsLower, IsClassFault, IsTableFault};

use crate::check_fault::CheckFault;
use crate::leading::{all_may_lead, all_next_are_lower, all_next_have_ranks, images};
use crate::ranks::Ranks;
use plan_classes::{Class, Image, class_row, decided, parts};
use plan_model::Plan;
use plan_rules::Row;
use std::alloc::Global;

/// Whether each class has a rank.
fn all_have_ranks(ranks: &Ranks, classes: &[Class]) -> bool
    ensures { IsTrue result ↔ All (λ class. IsSome (rank_in ranks.now class)) classes.now }
{
    for class in classes {
        if !ranks.has(class) {
            return false;
        }
    }
    true
}

/// Whether a class has a rank up to a bound.
fn ranks_up_to(ranks: &Ranks, bound: u8, class: &Class) -> bool
    ensures { IsTrue result ↔ RanksUpTo (rank_in ranks.now) bound class.now }
{
    match ranks.get(class) {
        Some(rank) => rank <= bound,
        None => false,
    }
}

/// Whether each class has a rank up to a bound.
fn all_rank_up_to(ranks: &Ranks, bound: u8, classes: &[Class]) -> bool
    ensures { IsTrue result ↔ All (RanksUpTo (rank_in ranks.now) bound) classes.now }
{
    for class in classes {
        if !ranks_up_to(ranks, bound, class) {
            return false;
        }
    }
    true
}

/// Whether a rank is from 1 to 14, and each part has one up to it.
fn is_no_lower(ranks: &Ranks, rank: u8, parts: &[Class]) -> bool
    ensures { IsTrue result ↔ ((1 ≤ rank) × (rank ≤ 14) × All (RanksUpTo (rank_in ranks.now) rank) parts.now) }
{
    1 <= rank && rank <= 14 && all_rank_up_to(ranks, rank, parts)
}

/// Whether a rank is from 1 to 14, and what the class leads on to ranks below it.
fn is_higher(ranks: &Ranks, rank: u8, images: &[Image]) -> bool
    ensures { IsTrue result ↔ ((1 ≤ rank) × (rank ≤ 14) × All (NextIsLower (rank_in ranks.now) rank) images.now) }
{
    1 <= rank && rank <= 14 && all_next_are_lower(ranks, rank, images)
}

/// Tests an undecided class of the plan by its parts. Whether each part has a rank is asked only if one fails. So each rank is
/// looked up once if all parts pass.
fn test_open(
    alloc: Global,
    plan: &Plan,
    ranks: &Ranks,
    class: &Class,
    rank: u8,
) -> Result<(), CheckFault>
    requires cover { class.now.cover < length plan.now.covers }
    requires node { class.now.node < length plan.now.nodes }
    requires undecided { Decided plan.now class.now → ⊥ }
    ensures passed { OnOk result (IsRankedClass plan.now (rank_in ranks.now) class.now rank) }
    ensures fault { IfErr result (IsClassFault plan.now (rank_in ranks.now) class.now rank) }
{
    let split = parts(alloc, class)?;
    let parts = split.as_slice();
    if is_no_lower(ranks, rank, parts) {
        return Ok(());
    }
    if !all_have_ranks(ranks, parts) {
        return Err(CheckFault::NoRank(*class));
    }
    Err(CheckFault::NotLower(*class))
}

/// Tests a decided class of the plan by its row.
fn test_decided(
    alloc: Global,
    plan: &Plan,
    ranks: &Ranks,
    class: &Class,
    rank: u8,
) -> Result<(), CheckFault>
    requires cover { class.now.cover < length plan.now.covers }
    requires node { class.now.node < length plan.now.nodes }
    requires decided { Decided plan.now class.now }
    ensures passed { OnOk result (IsRankedClass plan.now (rank_in ranks.now) class.now rank) }
    ensures fault { IfErr result (IsClassFault plan.now (rank_in ranks.now) class.now rank) }
{
    match class_row(plan, class) {
        Some(row) => test_row(alloc, plan, ranks, class, row, rank),
        None => Err(CheckFault::BadEnd(*class)),
    }
}

/// Tests a decided class of the plan by what the targets of its row make of it.
fn test_row(
    alloc: Global,
    plan: &Plan,
    ranks: &Ranks,
    class: &Class,
    row: &Row,
    rank: u8,
) -> Result<(), CheckFault>
    requires cover { class.now.cover < length plan.now.covers }
    requires node { class.now.node < length plan.now.nodes }
    requires decided { Decided plan.now class.now }
    requires row { class_row plan.now class.now ≡ Some row.now }
    ensures passed { OnOk result (IsRankedClass plan.now (rank_in ranks.now) class.now rank) }
    ensures fault { IfErr result (IsClassFault plan.now (rank_in ranks.now) class.now rank) }
{
    let led = images(alloc, plan, class, row)?;
    let images = led.as_slice();
    if !all_may_lead(plan, class.cover(), images) {
        return Err(CheckFault::BadEnd(*class));
    }
    if is_higher(ranks, rank, images) {
        return Ok(());
    }
    if !all_next_have_ranks(ranks, images) {
        return Err(CheckFault::NoRank(*class));
    }
    Err(CheckFault::NotLower(*class))
}

/// Whether a class's cover and node are the plan's.
fn is_of_plan(plan: &Plan, class: &Class) -> bool
    ensures { IsTrue result ↔ ((class.now.cover < length plan.now.covers) × (class.now.node < length plan.now.nodes)) }
{
    (class.cover() as usize) < plan.covers().as_slice().len()
        && usize::from(class.node()) < plan.nodes().as_slice().len()
}

/// Tests whether a class's rank agrees with the classes that follow it.
fn test_class(
    alloc: Global,
    plan: &Plan,
    ranks: &Ranks,
    class: &Class,
    rank: u8,
) -> Result<(), CheckFault>
    ensures passed { OnOk result (IsRankedClass plan.now (rank_in ranks.now) class.now rank) }
    ensures fault { IfErr result (IsClassFault plan.now (rank_in ranks.now) class.now rank) }
{
    if !is_of_plan(plan, class) {
        return Err(CheckFault::BadEnd(*class));
    }
    if decided(plan, class) {
        test_decided(alloc, plan, ranks, class, rank)
    } else {
        test_open(alloc, plan, ranks, class, rank)
    }
}

/// Tests each class of a table, in order.
pub(crate) fn test_classes(alloc: Global, plan: &Plan, ranks: &Ranks) -> Result<(), CheckFault>
    ensures passed { OnOk result (IsRanked plan.now (rank_in ranks.now)) }
    ensures fault { IfErr result (IsTableFault plan.now ranks.now) }
{
    for (class, rank) in ranks.entries().iter() {
        test_class(alloc, plan, ranks, class, *rank)?;
    }
    Ok(())
}
