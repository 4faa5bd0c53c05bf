//! The mixed route of a title.
ghost use Rattle.std.specs.Prelude.{◌≡◌, ◌<◌, IfOk, length};
ghost use Rattle.plan_model.specs.Routes.{StaysIn};
ghost use Rattle.plan_model.specs.Steps.{step};
ghost use Rattle.plan_mixed.specs.Mixed.{held};
ghost use Rattle.plan_change.specs.Mixture.{made_under, mixed, mixed_under, tagged, tagged_under};

use crate::mixed_hop::MixedHop;
use crate::plans::Plans;
use crate::turn::Turn;
use plan_mixed::Which;
use plan_model::{Hop, Plan, Spot, Step, step};
use sccp_base::{List, Marking, OutOfMemory};
use std::alloc::Global;

/// What a spot's node does in its turn.
fn made(alloc: Global, plans: &Plans<'_>, turn: &Turn, spot: &Spot) -> Result<Step, OutOfMemory>
    requires same { length plans.now.old.now.nodes ≡ length plans.now.new.now.nodes }
    requires node { spot.now.node < length plans.now.old.now.nodes }
    ensures value { IfOk result (λ s. s ≡ made_under plans.now.may.now plans.now.old.now plans.now.new.now turn.now spot.now) }
    ensures stays { IfOk result (StaysIn plans.now.old.now) }
{
    let which = plans.chosen(spot.node, turn.which);
    made_by(alloc, plans, which, spot, &turn.marking)
}

/// What a spot's node does by one of the plans.
fn made_by(
    alloc: Global,
    plans: &Plans<'_>,
    which: Which,
    spot: &Spot,
    marking: &Marking,
) -> Result<Step, OutOfMemory>
    requires same { length plans.now.old.now.nodes ≡ length plans.now.new.now.nodes }
    requires node { spot.now.node < length plans.now.old.now.nodes }
    ensures value { IfOk result (λ s. s ≡ step (held plans.now.old.now plans.now.new.now which) spot.now marking.now) }
    ensures stays { IfOk result (StaysIn plans.now.old.now) }
{
    step(alloc, plans.held(which), spot, marking)
}

/// The hops from a spot, one for each turn, until a step is not `Sent`.
pub(crate) fn mixed(
    alloc: Global,
    plans: &Plans<'_>,
    spot: &Spot,
    turns: &[Turn],
) -> Result<List<Hop>, OutOfMemory>
    requires same { length plans.now.old.now.nodes ≡ length plans.now.new.now.nodes }
    requires node { spot.now.node < length plans.now.old.now.nodes }
    ensures { IfOk result (λ hops. hops ≡ mixed_under plans.now.may.now plans.now.old.now plans.now.new.now spot.now turns.now) }
{
    let mut hops = List::new(alloc);
    let mut here = *spot;
    for turn in turns {
        let step = made(alloc, plans, turn, &here)?;
        let next = step.next();
        hops.push(Hop { spot: here, step })?;
        match next {
            Some(next) => here = next,
            None => return Ok(hops),
        }
    }
    Ok(hops)
}

/// The same hops, each with the plan that its relay held.
pub(crate) fn hops_under(
    alloc: Global,
    plans: &Plans<'_>,
    spot: &Spot,
    turns: &[Turn],
) -> Result<List<MixedHop>, OutOfMemory>
    requires same { length plans.now.old.now.nodes ≡ length plans.now.new.now.nodes }
    requires node { spot.now.node < length plans.now.old.now.nodes }
    ensures { IfOk result (λ hops. hops ≡ tagged_under plans.now.may.now
        (mixed_under plans.now.may.now plans.now.old.now plans.now.new.now spot.now turns.now) turns.now) }
{
    let mut hops = List::new(alloc);
    let mut here = *spot;
    for turn in turns {
        let step = made(alloc, plans, turn, &here)?;
        let next = step.next();
        hops.push(MixedHop {
            which: plans.chosen(here.node, turn.which),
            hop: Hop { spot: here, step },
        })?;
        match next {
            Some(next) => here = next,
            None => return Ok(hops),
        }
    }
    Ok(hops)
}

/// The mixed route of a spot: the hops from it, one for each turn, until a step is not `Sent`. Each hop has the plan that its
/// relay held.
pub fn mixed_hops(
    alloc: Global,
    old: &Plan,
    new: &Plan,
    spot: &Spot,
    turns: &[Turn],
) -> Result<List<MixedHop>, OutOfMemory>
    requires same { length old.now.nodes ≡ length new.now.nodes }
    requires node { spot.now.node < length old.now.nodes }
    ensures { IfOk result (λ hops. hops ≡ tagged (mixed old.now new.now spot.now turns.now) turns.now) }
{
    let plans = Plans { old, new, may: &[] };
    hops_under(alloc, &plans, spot, turns)
}
