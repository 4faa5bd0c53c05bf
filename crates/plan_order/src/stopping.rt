//! The set at which no relay can be next, if there is no order.
ghost use Rattle.std.specs.Prelude.{ℕ, ◌≡◌, ◌∷◌, [], List, IfOk};
ghost use Rattle.std.specs.List.{All, concat};
ghost use Rattle.plan_model.specs.SameNodes.{SameNodes};
ghost use Rattle.plan_order.specs.Sets.{AreStepSets};
ghost use Rattle.plan_order.specs.Steps.{IsSafeStep, AreSteps, sets_of};
ghost use Rattle.plan_order.specs.Orders.{IsOrder, IsLawfulOrder};
ghost use Rattle.plan_order.specs.Searching.{IsSplit, IsNextStep, IsWhy};

use crate::answer::Order;
use crate::growing::{first_safe, grown};
use crate::known::Known;
use crate::outcome::{Outcome, outcome_of};
use crate::plans::Plans;
use crate::safe_step::SafeStep;
use crate::sets::{joined, one, without};
use crate::stuck::Stuck;
use crate::trying::walk;
use sccp_base::{List, OutOfMemory};
use std::alloc::Global;

/// The safe steps from here on, as far as they lead, and why no relay can be next after them.
#[cycle(stop)]
pub(crate) fn stop_at(
    alloc: Global,
    plans: &Plans<'_>,
    done: &[u8],
    left: &[u8],
    steps: List<SafeStep>,
) -> Result<Order, OutOfMemory>
    requires same { SameNodes plans.now.old.now plans.now.new.now }
    requires none { (sets : List (List ℕ)) → IsOrder plans.now.old.now plans.now.new.now sets → ⊥ }
    requires split { IsSplit plans.now.old.now plans.now.new.now done.now left.now }
    requires steps { AreSteps plans.now.old.now plans.now.new.now [] steps }
    requires done { concat (sets_of steps) ≡ done.now }
    requires sets { AreStepSets (sets_of steps) }
    ensures { IfOk result (IsLawfulOrder plans.now.old.now plans.now.new.now) }
{
    let mut known = Known::new(alloc);
    let first = first_safe(alloc, plans, done, left, &mut known)?;
    match first {
        Some(first) => {
            let step = grown(alloc, plans, done, left, first, &mut known)?;
            stop_after(alloc, plans, done, left, step, steps)
        }
        None => {
            if known.wide {
                return Ok(Order::Undecided);
            }
            stuck_here(alloc, plans, done, left, steps)
        }
    }
}

/// The same after one more step.
#[cycle(stop)]
fn stop_after(
    alloc: Global,
    plans: &Plans<'_>,
    done: &[u8],
    left: &[u8],
    step: SafeStep,
    steps: List<SafeStep>,
) -> Result<Order, OutOfMemory>
    requires same { SameNodes plans.now.old.now plans.now.new.now }
    requires none { (sets : List (List ℕ)) → IsOrder plans.now.old.now plans.now.new.now sets → ⊥ }
    requires split { IsSplit plans.now.old.now plans.now.new.now done.now left.now }
    requires steps { AreSteps plans.now.old.now plans.now.new.now [] steps }
    requires done { concat (sets_of steps) ≡ done.now }
    requires sets { AreStepSets (sets_of steps) }
    requires step { IsNextStep plans.now.old.now plans.now.new.now done.now left.now step }
    ensures { IfOk result (IsLawfulOrder plans.now.old.now plans.now.new.now) }
{
    let further = joined(alloc, done, step.nodes.as_slice())?;
    let rest = without(alloc, left, step.nodes.as_slice())?;
    let mut steps = steps;
    steps.push(step)?;
    stop_at(alloc, plans, further.as_slice(), rest.as_slice(), steps)
}

/// The answer if none of the relays that are left can be next.
fn stuck_here(
    alloc: Global,
    plans: &Plans<'_>,
    done: &[u8],
    left: &[u8],
    steps: List<SafeStep>,
) -> Result<Order, OutOfMemory>
    requires same { SameNodes plans.now.old.now plans.now.new.now }
    requires none { (sets : List (List ℕ)) → IsOrder plans.now.old.now plans.now.new.now sets → ⊥ }
    requires split { IsSplit plans.now.old.now plans.now.new.now done.now left.now }
    requires steps { AreSteps plans.now.old.now plans.now.new.now [] steps }
    requires done { concat (sets_of steps) ≡ done.now }
    requires sets { AreStepSets (sets_of steps) }
    requires refused { All (λ node. IsSafeStep plans.now.old.now plans.now.new.now done.now (node ∷ []) → ⊥) left.now }
    ensures { IfOk result (IsLawfulOrder plans.now.old.now plans.now.new.now) }
{
    let mut stuck = List::new(alloc);
    for node in left {
        match why_stuck(alloc, plans, done, *node)? {
            Some(one) => stuck.push(one)?,
            None => return Ok(Order::Undecided),
        }
    }
    Ok(Order::NoOrder(steps, stuck))
}

/// The bad mixed route of the step of this relay only, unless it reaches too many classes.
fn why_stuck(
    alloc: Global,
    plans: &Plans<'_>,
    done: &[u8],
    node: u8,
) -> Result<Option<Stuck>, OutOfMemory>
    requires same { SameNodes plans.now.old.now plans.now.new.now }
    requires refused { IsSafeStep plans.now.old.now plans.now.new.now done.now (node ∷ []) → ⊥ }
    ensures { IfOk result (IsWhy plans.now.old.now plans.now.new.now done.now node) }
{
    let nodes = one(alloc, node)?;
    let why = walk(alloc, plans, done, nodes.as_slice())?;
    match outcome_of(&why) {
        Outcome::Safe(_) => unreachable!(),
        Outcome::Refused => Ok(Some(Stuck { node, why })),
        Outcome::Wide => Ok(None),
    }
}
