//! The walk of one step.
ghost use Rattle.std.specs.Prelude.{◌≡◌, false, length, IfOk, OnOk};
ghost use Rattle.plan_model.specs.SameNodes.{SameNodes};
ghost use Rattle.plan_change.specs.Changes.{IsLawfulUnder};
ghost use Rattle.plan_order.specs.Steps.{holding, during};
ghost use Rattle.plan_order.specs.Searching.{IsOutcome, IsKnown, IsBoundOf};

use crate::known::Known;
use crate::outcome::{Outcome, outcome_of};
use crate::plans::Plans;
use crate::refusing::{is_refused, keep};
use crate::rows::count_of;
use crate::sets::is_in;
use plan_change::{Change, mixture};
use plan_mixed::Holding;
use sccp_base::{List, OutOfMemory};
use std::alloc::Global;

/// What the relay at a place may hold while the relays of a step are given the new plan.
fn holding(done: &[u8], step: &[u8], node: u8) -> Holding
    ensures { result ≡ holding done.now step.now node }
{
    if is_in(done, node) {
        return Holding::New;
    }
    if is_in(step, node) {
        return Holding::Either;
    }
    Holding::Old
}

/// What each of this number of relays may hold meanwhile.
fn during(alloc: Global, count: u8, done: &[u8], step: &[u8]) -> Result<List<Holding>, OutOfMemory>
    ensures { IfOk result (λ may. may ≡ during count done.now step.now) }
{
    let mut may = List::new(alloc);
    for node in 0..count {
        may.push(holding(done, step, node))?;
    }
    Ok(may)
}

/// The answer on two plans while the relays of a step are given the new one.
pub(crate) fn walk(
    alloc: Global,
    plans: &Plans<'_>,
    done: &[u8],
    step: &[u8],
) -> Result<Change, OutOfMemory>
    requires same { SameNodes plans.now.old.now plans.now.new.now }
    ensures { IfOk result (IsLawfulUnder (during (length plans.now.old.now.nodes) done.now step.now) plans.now.old.now plans.now.new.now) }
{
    let may = during(alloc, count_of(plans.old), done, step)?;
    let change = mixture(alloc, plans.old, plans.new, may.as_slice());
    drop(may);
    change
}

/// Keeps the bad route of a step as a refusal, if the step has one.
fn keep_route(
    alloc: Global,
    plans: &Plans<'_>,
    done: &[u8],
    step: &[u8],
    change: &Change,
    known: &mut Known,
) -> Result<(), OutOfMemory>
    requires known { IsKnown plans.now.old.now plans.now.new.now known.old }
    requires lawful { IsLawfulUnder (during (length plans.now.old.now.nodes) done.now step.now)
        plans.now.old.now plans.now.new.now change.now }
    ensures known { OnOk result (IsKnown plans.now.old.now plans.now.new.now known.new) }
    ensures wide { OnOk result (known.new.wide ≡ known.old.wide) }
{
    match change {
        Change::Broken { hops, .. } => keep(alloc, plans, hops.as_slice(), known),
        Change::Kept { .. } => Ok(()),
        Change::TooWide => Ok(()),
    }
}

/// The outcome of a step. If it is refused, its bad route is kept.
fn outcome(
    alloc: Global,
    plans: &Plans<'_>,
    done: &[u8],
    step: &[u8],
    known: &mut Known,
) -> Result<Outcome, OutOfMemory>
    requires same { SameNodes plans.now.old.now plans.now.new.now }
    requires known { IsKnown plans.now.old.now plans.now.new.now known.old }
    ensures known { OnOk result (IsKnown plans.now.old.now plans.now.new.now known.new) }
    ensures wide { OnOk result (known.new.wide ≡ known.old.wide) }
    ensures outcome { IfOk result (IsOutcome plans.now.old.now plans.now.new.now done.now step.now) }
{
    let change = walk(alloc, plans, done, step)?;
    let told = outcome_of(&change);
    let kept = keep_route(alloc, plans, done, step, &change, known);
    drop(change);
    kept?;
    Ok(told)
}

/// The bound of a step, if it is safe. A step that is known to be refused is not walked. One that is too wide is noted.
pub(crate) fn bound_of(
    alloc: Global,
    plans: &Plans<'_>,
    done: &[u8],
    step: &[u8],
    known: &mut Known,
) -> Result<Option<u8>, OutOfMemory>
    requires same { SameNodes plans.now.old.now plans.now.new.now }
    requires known { IsKnown plans.now.old.now plans.now.new.now known.old }
    ensures known { OnOk result (IsKnown plans.now.old.now plans.now.new.now known.new) }
    ensures narrow { OnOk result (known.new.wide ≡ false → known.old.wide ≡ false) }
    ensures bound { IfOk result (IsBoundOf plans.now.old.now plans.now.new.now done.now step.now known.new) }
{
    if is_refused(known.refusals.as_slice(), done, step) {
        return Ok(None);
    }
    match outcome(alloc, plans, done, step, known)? {
        Outcome::Safe(bound) => Ok(Some(bound)),
        Outcome::Refused => Ok(None),
        Outcome::Wide => {
            known.wide = true;
            Ok(None)
        }
    }
}
