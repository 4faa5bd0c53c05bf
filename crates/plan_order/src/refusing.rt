//! The steps that are known to be refused.
ghost use Rattle.std.specs.Prelude.{◌≡◌, ◌↔◌, IsTrue, IfOk, OnOk};
ghost use Rattle.std.specs.List.{All, Any};
ghost use Rattle.plan_order.specs.Refusing.{lets, held_of, Refuses};
ghost use Rattle.plan_order.specs.Searching.{IsKnown};

use crate::held::Held;
use crate::known::Known;
use crate::plans::Plans;
use crate::sets::is_in;
use plan_change::MixedHop;
use plan_mixed::Which;
use sccp_base::{List, OutOfMemory};
use std::alloc::Global;

/// The number of refusals that a search keeps at most.
const MOST: usize = 1024;

/// Whether a step lets the relay hold the plan that it held.
fn lets(held: Held, done: &[u8], step: &[u8]) -> bool
    ensures { result ≡ lets done.now step.now held }
{
    match held.which {
        Which::Old => !is_in(done, held.node),
        Which::New => is_in(done, held.node) || is_in(step, held.node),
    }
}

/// Whether a step lets each of these relays hold the plan that it held.
fn fits(refusal: &[Held], done: &[u8], step: &[u8]) -> bool
    ensures { IsTrue result ↔ All (λ held. IsTrue (lets done.now step.now held)) refusal.now }
{
    refusal.iter().all(|held| lets(*held, done, step))
}

/// Whether a step is refused by one of these refusals.
pub(crate) fn is_refused(refusals: &[List<Held>], done: &[u8], step: &[u8]) -> bool
    ensures { IsTrue result ↔ Any (λ refusal. All (λ held. IsTrue (lets done.now step.now held)) refusal) refusals.now }
{
    refusals
        .iter()
        .any(|refusal| fits(refusal.as_slice(), done, step))
}

/// The relays of a route, each with the plan that it held.
fn held_of(alloc: Global, hops: &[MixedHop]) -> Result<List<Held>, OutOfMemory>
    ensures { IfOk result (λ refusal. refusal ≡ held_of hops.now) }
{
    let mut refusal = List::new(alloc);
    for hop in hops {
        refusal.push(Held {
            node: hop.hop.spot.node,
            which: hop.which,
        })?;
    }
    Ok(refusal)
}

/// Keeps the relays of a bad route as a refusal, unless there are many.
pub(crate) fn keep(
    alloc: Global,
    plans: &Plans<'_>,
    hops: &[MixedHop],
    known: &mut Known,
) -> Result<(), OutOfMemory>
    requires known { IsKnown plans.now.old.now plans.now.new.now known.old }
    requires refuses { Refuses plans.now.old.now plans.now.new.now (held_of hops.now) }
    ensures known { OnOk result (IsKnown plans.now.old.now plans.now.new.now known.new) }
    ensures wide { OnOk result (known.new.wide ≡ known.old.wide) }
{
    if MOST <= known.refusals.as_slice().len() {
        return Ok(());
    }
    let refusal = held_of(alloc, hops)?;
    known.refusals.push(refusal)
}
