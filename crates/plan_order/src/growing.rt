//! Steps of more and more relays.
ghost use Rattle.std.specs.Prelude.{◌≡◌, false, IfOk, OnOk};
ghost use Rattle.plan_model.specs.SameNodes.{SameNodes};
ghost use Rattle.plan_order.specs.Searching.{IsKnown, IsAlone, IsFirst, IsNextStep, IsGrown};

use crate::known::Known;
use crate::plans::Plans;
use crate::safe_step::SafeStep;
use crate::sets::{are_before, joined, one};
use crate::trying::bound_of;
use sccp_base::{List, OutOfMemory};
use std::alloc::Global;

/// The step of one relay, if it is safe.
pub(crate) fn alone(
    alloc: Global,
    plans: &Plans<'_>,
    done: &[u8],
    node: u8,
    known: &mut Known,
) -> Result<Option<SafeStep>, OutOfMemory>
    requires same { SameNodes plans.now.old.now plans.now.new.now }
    requires known { IsKnown plans.now.old.now plans.now.new.now known.old }
    ensures known { OnOk result (IsKnown plans.now.old.now plans.now.new.now known.new) }
    ensures narrow { OnOk result (known.new.wide ≡ false → known.old.wide ≡ false) }
    ensures alone { IfOk result (IsAlone plans.now.old.now plans.now.new.now done.now node known.new) }
{
    let nodes = one(alloc, node)?;
    match bound_of(alloc, plans, done, nodes.as_slice(), known)? {
        Some(bound) => Ok(Some(SafeStep { nodes, bound })),
        None => Ok(None),
    }
}

/// The step of the first relay of these by which it is safe.
pub(crate) fn first_safe(
    alloc: Global,
    plans: &Plans<'_>,
    done: &[u8],
    left: &[u8],
    known: &mut Known,
) -> Result<Option<SafeStep>, OutOfMemory>
    requires same { SameNodes plans.now.old.now plans.now.new.now }
    requires known { IsKnown plans.now.old.now plans.now.new.now known.old }
    ensures known { OnOk result (IsKnown plans.now.old.now plans.now.new.now known.new) }
    ensures narrow { OnOk result (known.new.wide ≡ false → known.old.wide ≡ false) }
    ensures first { IfOk result (IsFirst plans.now.old.now plans.now.new.now done.now left.now known.new) }
{
    for node in left {
        match alone(alloc, plans, done, *node, known)? {
            Some(step) => return Ok(Some(step)),
            None => {}
        }
    }
    Ok(None)
}

/// The step with one more relay, if it is still safe then, and otherwise the step. Relays of it or before it are not taken again.
fn grow_by(
    alloc: Global,
    plans: &Plans<'_>,
    done: &[u8],
    step: SafeStep,
    node: u8,
    known: &mut Known,
) -> Result<SafeStep, OutOfMemory>
    requires same { SameNodes plans.now.old.now plans.now.new.now }
    requires known { IsKnown plans.now.old.now plans.now.new.now known.old }
    ensures known { OnOk result (IsKnown plans.now.old.now plans.now.new.now known.new) }
    ensures narrow { OnOk result (known.new.wide ≡ false → known.old.wide ≡ false) }
    ensures grown { IfOk result (IsGrown plans.now.old.now plans.now.new.now done.now step node) }
{
    if !are_before(step.nodes.as_slice(), node) {
        return Ok(step);
    }
    let nodes = joined(alloc, step.nodes.as_slice(), &[node])?;
    match bound_of(alloc, plans, done, nodes.as_slice(), known)? {
        Some(bound) => Ok(SafeStep { nodes, bound }),
        None => Ok(step),
    }
}

/// The step with each further relay of these that keeps it safe.
pub(crate) fn grown(
    alloc: Global,
    plans: &Plans<'_>,
    done: &[u8],
    left: &[u8],
    first: SafeStep,
    known: &mut Known,
) -> Result<SafeStep, OutOfMemory>
    requires same { SameNodes plans.now.old.now plans.now.new.now }
    requires known { IsKnown plans.now.old.now plans.now.new.now known.old }
    requires step { IsNextStep plans.now.old.now plans.now.new.now done.now left.now first }
    ensures known { OnOk result (IsKnown plans.now.old.now plans.now.new.now known.new) }
    ensures narrow { OnOk result (known.new.wide ≡ false → known.old.wide ≡ false) }
    ensures grown { IfOk result (IsNextStep plans.now.old.now plans.now.new.now done.now left.now) }
{
    let mut step = first;
    for node in left {
        step = grow_by(alloc, plans, done, step, *node, known)?;
    }
    Ok(step)
}
