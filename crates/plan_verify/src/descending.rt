//! A title whose route is as long as the rank of its class says.
ghost use Rattle.std.specs.Prelude.{◌≤◌, ◌<◌, IfOk};
ghost use Rattle.plan_check.specs.Ranking.{rank_in};
ghost use Rattle.plan_verify.specs.Attained.{RanksFrom};
ghost use Rattle.plan_verify.specs.Searching.{IsSound};
ghost use Rattle.plan_verify.specs.Traces.{IsWay};

use crate::high::{high_part, high_target};
use crate::trace::{Trace, carry, least_title};
use plan_check::RankTable;
use plan_classes::{Class, decided, parts};
use plan_model::Plan;
use sccp_base::OutOfMemory;
use std::alloc::Global;

/// A title of the class whose route has this number of hops. The class has at least that rank.
pub(crate) fn descend(
    alloc: Global,
    plan: &Plan,
    ranks: &RankTable,
    class: &Class,
    hops: u8,
) -> Result<Trace, OutOfMemory>
    requires some { 1 ≤ hops }
    requires ranked { RanksFrom (rank_in ranks.now) hops class.now }
    requires sound { IsSound plan.now ranks.now }
    ensures { IfOk result (IsWay plan.now class.now hops) }
{
    if hops == 1 {
        return least_title(alloc, class);
    }
    if decided(plan, class) {
        let (place, next) = high_target(plan, ranks, class, hops - 1);
        let behind = descend(alloc, plan, ranks, &next, hops - 1)?;
        carry(alloc, plan, class, place, behind)
    } else {
        let parts = parts(alloc, class)?;
        let part = high_part(ranks, parts.as_slice(), hops);
        descend(alloc, plan, ranks, part, hops)
    }
}
