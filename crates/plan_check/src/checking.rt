//! The check of a table of ranks.
ghost use Rattle.std.specs.Prelude.{◌≡◌, ◌<◌, ℕ, length, IsTrue, ◌↔◌, IfOk, IfErr};
ghost use Rattle.plan_model.specs.Network.{IsPlan};
ghost use Rattle.plan_model.specs.Covered.{Covered};
ghost use Rattle.plan_model.specs.Verdicts.{Safe, Tight};
ghost use Rattle.plan_check.specs.Ranking.{rank_in};
ghost use Rattle.plan_check.specs.Ranked.{IsGreatestStart};
ghost use Rattle.plan_check.specs.Checks.{Passes, IsCheckFault};
ghost use Rattle.plan_check.specs.Verified.{IsVerified};

use crate::accepted::Accepted;
use crate::accepting::accept;
use crate::check_fault::CheckFault;
use crate::classes::test_classes;
use crate::longest::Longest;
use crate::ranks::Ranks;
use crate::starts::greatest_start;
use crate::unchecked::Unchecked;
use plan_model::{Plan, Spot, route};
use sccp_base::OutOfMemory;
use std::alloc::Global;

/// Whether some cover has the spot, which then is at a node of the plan.
fn is_covered(plan: &Plan, spot: &Spot) -> bool
    ensures covered { IsTrue result ↔ Covered plan.now spot.now }
    ensures node { IsTrue result → spot.now.node < length plan.now.nodes }
{
    usize::from(spot.node) < plan.nodes().as_slice().len() && plan.covered(spot)
}

/// Whether a covered title's route has as many hops as the bound, under as many markings.
fn is_tight(alloc: Global, plan: &Plan, bound: u8, longest: &Longest) -> Result<bool, OutOfMemory>
    ensures { IfOk result (λ tight. IsTrue tight ↔ Tight plan.now bound longest.now.spot longest.now.markings) }
{
    if !is_covered(plan, &longest.spot) {
        return Ok(false);
    }
    let markings = longest.markings.as_slice();
    if markings.len() != usize::from(bound) {
        return Ok(false);
    }
    let hops = route(alloc, plan, longest.spot, markings)?;
    Ok(hops.as_slice().len() == usize::from(bound))
}

/// The greatest rank of a start if every test passes, or the first fault.
fn bound_of(alloc: Global, plan: &Plan, ranks: &Ranks, longest: &Longest) -> Result<u8, CheckFault>
    ensures passed { IfOk result (Passes plan.now ranks.now longest.now) }
    ensures fault { IfErr result (IsCheckFault plan.now ranks.now longest.now) }
    ensures plan { IsPlan plan.now }
{
    let bound = greatest_start(plan, ranks).map_err(CheckFault::NoStart)?;
    test_classes(alloc, plan, ranks)?;
    if !is_tight(alloc, plan, bound, longest)? {
        return Err(CheckFault::NotTight);
    }
    Ok(bound)
}

/// Accepts a plan if the ranks show it to be safe for the greatest rank of a start. The longest route must show that no smaller
/// bound is enough. Otherwise the plan is returned with the first fault: `NoStart` for the first cover whose start has no
/// rank. Then `BadEnd`, `NoRank` or `NotLower` for the first class of the table that fails; `NotTight` is last.
pub fn check(
    alloc: Global,
    plan: Plan,
    ranks: &Ranks,
    longest: Longest,
) -> Result<Accepted, Unchecked>
    ensures plan { IfOk result (λ a. a.plan ≡ plan) }
    ensures longest { IfOk result (λ a. a.longest ≡ longest) }
    ensures bound { IfOk result (λ a. IsGreatestStart plan (rank_in ranks.now) a.bound) }
    ensures safe { IfOk result (λ a. Safe plan a.bound) }
    ensures tight { IfOk result (λ a. Tight plan a.bound longest.spot longest.markings) }
    ensures passed { IfOk result (λ a. Passes plan ranks.now longest a.bound) }
    ensures verified { IfOk result IsVerified }
    ensures handed_back { IfErr result (λ u. u.plan ≡ plan) }
    ensures fault { IfErr result (λ u. IsCheckFault plan ranks.now longest u.fault) }
    ensures complete { (bound : ℕ) → Passes plan ranks.now longest bound → IfErr result (λ u. u.fault ≡ CheckFault.OutOfMemory) }
{
    match bound_of(alloc, &plan, ranks, &longest) {
        Ok(bound) => Ok(accept(plan, bound, longest)),
        Err(fault) => Err(Unchecked { plan, fault }),
    }
}
