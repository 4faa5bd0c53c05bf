//! The search for an order.
ghost use Rattle.std.specs.Prelude.{◌≡◌, ◌↔◌, ◌∷◌, [], ◌++◌, ◌<◌, false, IsTrue, IfOk, OnOk, length};
ghost use Rattle.std.specs.List.{All, Any};
ghost use Rattle.plan_model.specs.SameNodes.{SameNodes};
ghost use Rattle.plan_order.specs.declared.found.Found.TheVariants.{Steps as StepsFound};
ghost use Rattle.plan_order.specs.Sets.{is_in, SameSet, Differs};
ghost use Rattle.plan_order.specs.Orders.{IsDeadEnd};
ghost use Rattle.plan_order.specs.Searching.{IsKnown, IsSplit, IsNextStep, IsClosed, IsFound, IsFoundIf};

use crate::found::Found;
use crate::growing::{alone, first_safe, grown};
use crate::known::Known;
use crate::plans::Plans;
use crate::safe_step::SafeStep;
use crate::sets::{are_same, copied, joined, without};
use crate::trying::bound_of;
use sccp_base::{List, OutOfMemory};
use std::alloc::Global;

/// The number of dead ends at which the search gives up.
const MOST: usize = 256;

/// Whether the search has met this set as a dead end.
fn is_dead(dead: &[List<u8>], done: &[u8]) -> bool
    ensures { IsTrue result ↔ Any (λ set. SameSet set done.now) dead.now }
{
    dead.iter().any(|set| are_same(set.as_slice(), done))
}

/// Looks for steps from here on, after which all relays have the new plan.
#[cycle(seek)]
pub(crate) fn seek(
    alloc: Global,
    plans: &Plans<'_>,
    done: &[u8],
    left: &[u8],
    known: &mut Known,
) -> Result<Found, OutOfMemory>
    requires same { SameNodes plans.now.old.now plans.now.new.now }
    requires split { IsSplit plans.now.old.now plans.now.new.now done.now left.now }
    requires known { IsKnown plans.now.old.now plans.now.new.now known.old }
    ensures known { OnOk result (IsKnown plans.now.old.now plans.now.new.now known.new) }
    ensures narrow { OnOk result (known.new.wide ≡ false → known.old.wide ≡ false) }
    ensures found { IfOk result (IsFound plans.now.old.now plans.now.new.now done.now left.now known.new) }
{
    if left.is_empty() {
        return Ok(Found::Steps(List::new(alloc)));
    }
    if is_dead(known.dead.as_slice(), done) {
        return Ok(Found::Nowhere);
    }
    match bound_of(alloc, plans, done, left, known)? {
        Some(bound) => last_step(alloc, left, bound),
        None => seek_parts(alloc, plans, done, left, known),
    }
}

/// All relays that are left as one step.
fn last_step(alloc: Global, left: &[u8], bound: u8) -> Result<Found, OutOfMemory>
    ensures { IfOk result (λ found. found ≡ StepsFound (record { nodes = left.now; bound = bound } ∷ [])) }
{
    let nodes = copied(alloc, left)?;
    let mut steps = List::new(alloc);
    steps.push(SafeStep { nodes, bound })?;
    Ok(Found::Steps(steps))
}

/// Looks for steps that begin with a part of the relays that are left.
#[cycle(seek)]
fn seek_parts(
    alloc: Global,
    plans: &Plans<'_>,
    done: &[u8],
    left: &[u8],
    known: &mut Known,
) -> Result<Found, OutOfMemory>
    requires same { SameNodes plans.now.old.now plans.now.new.now }
    requires split { IsSplit plans.now.old.now plans.now.new.now done.now left.now }
    requires some { 0 < length left.now }
    requires known { IsKnown plans.now.old.now plans.now.new.now known.old }
    ensures known { OnOk result (IsKnown plans.now.old.now plans.now.new.now known.new) }
    ensures narrow { OnOk result (known.new.wide ≡ false → known.old.wide ≡ false) }
    ensures found { IfOk result (IsFound plans.now.old.now plans.now.new.now done.now left.now known.new) }
{
    match first_safe(alloc, plans, done, left, known)? {
        Some(first) => {
            let step = grown(alloc, plans, done, left, first, known)?;
            seek_by_grown(alloc, plans, done, left, step, known)
        }
        None => end_here(alloc, plans, done, left, known),
    }
}

/// Looks for steps that begin with this one, and then for those that begin with one relay.
#[cycle(seek)]
fn seek_by_grown(
    alloc: Global,
    plans: &Plans<'_>,
    done: &[u8],
    left: &[u8],
    step: SafeStep,
    known: &mut Known,
) -> Result<Found, OutOfMemory>
    requires same { SameNodes plans.now.old.now plans.now.new.now }
    requires split { IsSplit plans.now.old.now plans.now.new.now done.now left.now }
    requires some { 0 < length left.now }
    requires step { IsNextStep plans.now.old.now plans.now.new.now done.now left.now step }
    requires known { IsKnown plans.now.old.now plans.now.new.now known.old }
    ensures known { OnOk result (IsKnown plans.now.old.now plans.now.new.now known.new) }
    ensures narrow { OnOk result (known.new.wide ≡ false → known.old.wide ≡ false) }
    ensures found { IfOk result (IsFound plans.now.old.now plans.now.new.now done.now left.now known.new) }
{
    match seek_by(alloc, plans, done, left, step, known)? {
        Found::Steps(steps) => Ok(Found::Steps(steps)),
        Found::Nowhere => seek_each(alloc, plans, done, left, known),
        Found::GaveUp => Ok(Found::GaveUp),
    }
}

/// Looks for steps that begin with this one.
#[cycle(seek)]
fn seek_by(
    alloc: Global,
    plans: &Plans<'_>,
    done: &[u8],
    left: &[u8],
    step: SafeStep,
    known: &mut Known,
) -> Result<Found, OutOfMemory>
    requires same { SameNodes plans.now.old.now plans.now.new.now }
    requires split { IsSplit plans.now.old.now plans.now.new.now done.now left.now }
    requires step { IsNextStep plans.now.old.now plans.now.new.now done.now left.now step }
    requires known { IsKnown plans.now.old.now plans.now.new.now known.old }
    ensures known { OnOk result (IsKnown plans.now.old.now plans.now.new.now known.new) }
    ensures narrow { OnOk result (known.new.wide ≡ false → known.old.wide ≡ false) }
    ensures found { IfOk result (IsFoundIf plans.now.old.now plans.now.new.now done.now left.now
        (IsDeadEnd plans.now.old.now plans.now.new.now (done.now ++ step.nodes)) known.new) }
{
    let further = joined(alloc, done, step.nodes.as_slice())?;
    let rest = without(alloc, left, step.nodes.as_slice())?;
    match seek(alloc, plans, further.as_slice(), rest.as_slice(), known)? {
        Found::Steps(steps) => in_front(step, steps),
        Found::Nowhere => Ok(Found::Nowhere),
        Found::GaveUp => Ok(Found::GaveUp),
    }
}

/// The step, and then these.
fn in_front(step: SafeStep, steps: List<SafeStep>) -> Result<Found, OutOfMemory>
    ensures { IfOk result (λ found. found ≡ StepsFound (step ∷ steps)) }
{
    let mut all = steps.into_vec();
    all.insert(0, step)?;
    Ok(Found::Steps(List::from_vec(all)))
}

/// Looks for steps that begin with one relay.
#[cycle(seek)]
fn seek_each(
    alloc: Global,
    plans: &Plans<'_>,
    done: &[u8],
    left: &[u8],
    known: &mut Known,
) -> Result<Found, OutOfMemory>
    requires same { SameNodes plans.now.old.now plans.now.new.now }
    requires split { IsSplit plans.now.old.now plans.now.new.now done.now left.now }
    requires some { 0 < length left.now }
    requires known { IsKnown plans.now.old.now plans.now.new.now known.old }
    ensures known { OnOk result (IsKnown plans.now.old.now plans.now.new.now known.new) }
    ensures narrow { OnOk result (known.new.wide ≡ false → known.old.wide ≡ false) }
    ensures found { IfOk result (IsFound plans.now.old.now plans.now.new.now done.now left.now known.new) }
{
    for node in left {
        match seek_one(alloc, plans, done, left, *node, known)? {
            Found::Steps(steps) => return Ok(Found::Steps(steps)),
            Found::Nowhere => {}
            Found::GaveUp => return Ok(Found::GaveUp),
        }
    }
    end_here(alloc, plans, done, left, known)
}

/// Looks for steps that begin with this relay.
#[cycle(seek)]
fn seek_one(
    alloc: Global,
    plans: &Plans<'_>,
    done: &[u8],
    left: &[u8],
    node: u8,
    known: &mut Known,
) -> Result<Found, OutOfMemory>
    requires same { SameNodes plans.now.old.now plans.now.new.now }
    requires split { IsSplit plans.now.old.now plans.now.new.now done.now left.now }
    requires node { IsTrue (is_in left.now node) }
    requires known { IsKnown plans.now.old.now plans.now.new.now known.old }
    ensures known { OnOk result (IsKnown plans.now.old.now plans.now.new.now known.new) }
    ensures narrow { OnOk result (known.new.wide ≡ false → known.old.wide ≡ false) }
    ensures found { IfOk result (IsFoundIf plans.now.old.now plans.now.new.now done.now left.now
        (IsClosed plans.now.old.now plans.now.new.now done.now node) known.new) }
{
    match alone(alloc, plans, done, node, known)? {
        Some(step) => seek_by(alloc, plans, done, left, step, known),
        None => Ok(Found::Nowhere),
    }
}

/// Notes a dead end.
fn note(alloc: Global, plans: &Plans<'_>, done: &[u8], known: &mut Known) -> Result<(), OutOfMemory>
    requires known { IsKnown plans.now.old.now plans.now.new.now known.old }
    requires differ { All (Differs plans.now.old.now plans.now.new.now) done.now }
    requires dead { known.old.wide ≡ false → IsDeadEnd plans.now.old.now plans.now.new.now done.now }
    ensures known { OnOk result (IsKnown plans.now.old.now plans.now.new.now known.new) }
    ensures wide { OnOk result (known.new.wide ≡ known.old.wide) }
{
    if is_dead(known.dead.as_slice(), done) {
        return Ok(());
    }
    let set = copied(alloc, done)?;
    known.dead.push(set)
}

/// Notes that no order goes on from here.
fn end_here(
    alloc: Global,
    plans: &Plans<'_>,
    done: &[u8],
    left: &[u8],
    known: &mut Known,
) -> Result<Found, OutOfMemory>
    requires known { IsKnown plans.now.old.now plans.now.new.now known.old }
    requires differ { All (Differs plans.now.old.now plans.now.new.now) done.now }
    requires dead { known.old.wide ≡ false → IsDeadEnd plans.now.old.now plans.now.new.now done.now }
    ensures known { OnOk result (IsKnown plans.now.old.now plans.now.new.now known.new) }
    ensures narrow { OnOk result (known.new.wide ≡ false → known.old.wide ≡ false) }
    ensures found { IfOk result (IsFound plans.now.old.now plans.now.new.now done.now left.now known.new) }
{
    note(alloc, plans, done, known)?;
    if MOST <= known.dead.as_slice().len() {
        return Ok(Found::GaveUp);
    }
    Ok(Found::Nowhere)
}
