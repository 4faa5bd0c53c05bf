//! The check of a plan, from the search to the verdict.
ghost use Rattle.std.specs.Prelude.{◌≡◌, ◌<◌, IfOk, IsSomeAnd, slice_get};
ghost use Rattle.plan_model.specs.Network.{IsPlan};
ghost use Rattle.plan_model.specs.Verdicts.{Tight};
ghost use Rattle.plan_classes.specs.Classes.{start_of};
ghost use Rattle.plan_check.specs.Ranking.{rank_in};
ghost use Rattle.plan_check.specs.Ranked.{StartsBelow};
ghost use Rattle.plan_verify.specs.Lawful.{IsLawful, AcceptsBelowLimit, plan_of};
ghost use Rattle.plan_verify.specs.Searching.{IsSound, IsBelowLimit, IsOutcome, HasStart};
ghost use Rattle.plan_verify.specs.Traces.{IsTrace};
ghost use Rattle.plan_verify.specs.Witnesses.{IsWitness};

use crate::descending::descend;
use crate::outcome::{Greatest, Outcome};
use crate::starts::explore_starts;
use crate::trace::Trace;
use crate::verdict::Verdict;
use crate::witness::Witness;
use plan_check::{Longest, RankTable, accept};
use plan_classes::start;
use plan_model::Plan;
use sccp_base::OutOfMemory;
use std::alloc::Global;

/// The verdict on a plan. It is `Accepted` if each covered title is blocked or has an allowed end within fourteen hops,
/// whatever the relays on its route have prohibited. It is `Refused` if some covered title has a bad route. It is `TooWide`
/// if the search gave up, which happens only if the plan reaches at least as many classes of titles as its limit says. A plan
/// that reaches as many is never `Accepted`.
pub fn verify(alloc: Global, plan: Plan) -> Result<Verdict, OutOfMemory>
    ensures same { IfOk result (λ verdict. plan_of verdict ≡ plan) }
    ensures lawful { IfOk result (IsLawful plan) }
    ensures below { IfOk result (AcceptsBelowLimit plan) }
{
    let mut ranks = RankTable::new(alloc);
    match explore_starts(alloc, &plan, &mut ranks) {
        Ok(outcome) => judge(alloc, plan, ranks, outcome),
        Err(fault) => {
            drop(ranks);
            drop(plan);
            Err(fault)
        }
    }
}

/// The verdict by what the search found of all covers.
fn judge(
    alloc: Global,
    plan: Plan,
    ranks: RankTable,
    outcome: Outcome,
) -> Result<Verdict, OutOfMemory>
    requires plan { IsPlan plan }
    requires sound { IsSound plan ranks }
    requires outcome { IsOutcome plan ranks outcome }
    ensures same { IfOk result (λ verdict. plan_of verdict ≡ plan) }
    ensures lawful { IfOk result (IsLawful plan) }
    ensures below { IfOk result (AcceptsBelowLimit plan) }
{
    let verdict = match outcome {
        Outcome::Ranked(greatest) => accept_ranked(alloc, plan, &ranks, greatest),
        Outcome::Refuted(number, trace) => refuse(alloc, plan, number, trace),
        Outcome::TooMany => Ok(Verdict::TooWide(plan)),
    };
    drop(ranks);
    verdict
}

/// The plan with the witness of a title that a cover has.
fn refuse(alloc: Global, plan: Plan, number: u32, trace: Trace) -> Result<Verdict, OutOfMemory>
    requires plan { IsPlan plan }
    requires trace { IsSomeAnd (slice_get plan.covers number) (λ cover. IsTrace plan (start_of number cover) 0 trace) }
    ensures same { IfOk result (λ verdict. plan_of verdict ≡ plan) }
    ensures lawful { IfOk result (IsLawful plan) }
    ensures below { IfOk result (AcceptsBelowLimit plan) }
{
    match refute(alloc, &plan, number, trace) {
        Ok(witness) => Ok(Verdict::Refused(plan, witness)),
        Err(fault) => {
            drop(plan);
            Err(fault)
        }
    }
}

/// The witness of a title that a cover has.
fn refute(alloc: Global, plan: &Plan, number: u32, trace: Trace) -> Result<Witness, OutOfMemory>
    requires plan { IsPlan plan.now }
    requires trace { IsSomeAnd (slice_get plan.now.covers number) (λ cover. IsTrace plan.now (start_of number cover) 0 trace) }
    ensures { IfOk result (IsWitness plan.now) }
{
    let Trace { digits, markings } = trace;
    let spot = start(plan, number).spot_of(&digits);
    Witness::of_route(alloc, plan, number, &spot, markings)
}

/// The plan with the greatest rank of a start as its bound.
fn accept_ranked(
    alloc: Global,
    plan: Plan,
    ranks: &RankTable,
    greatest: Greatest,
) -> Result<Verdict, OutOfMemory>
    requires plan { IsPlan plan }
    requires sound { IsSound plan ranks.now }
    requires starts { StartsBelow plan (rank_in ranks.now) greatest.rank }
    requires start { HasStart plan ranks.now greatest }
    requires room { IsBelowLimit plan ranks.now }
    ensures same { IfOk result (λ verdict. plan_of verdict ≡ plan) }
    ensures lawful { IfOk result (IsLawful plan) }
    ensures below { IfOk result (AcceptsBelowLimit plan) }
{
    match longest(alloc, &plan, ranks, greatest) {
        Ok(longest) => Ok(Verdict::Accepted(accept(plan, greatest.rank, longest))),
        Err(fault) => {
            drop(plan);
            Err(fault)
        }
    }
}

/// A title that the cover has, whose route has as many hops as the rank of the cover's start.
fn longest(
    alloc: Global,
    plan: &Plan,
    ranks: &RankTable,
    greatest: Greatest,
) -> Result<Longest, OutOfMemory>
    requires plan { IsPlan plan.now }
    requires sound { IsSound plan.now ranks.now }
    requires start { HasStart plan.now ranks.now greatest }
    ensures { IfOk result (λ longest. Tight plan.now greatest.rank longest.spot longest.markings) }
{
    let class = start(plan, greatest.cover);
    let Trace { digits, markings } = descend(alloc, plan, ranks, &class, greatest.rank)?;
    Ok(Longest {
        spot: class.spot_of(&digits),
        markings,
    })
}
