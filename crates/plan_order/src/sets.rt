//! Sets of relays, by their places in the plan.
ghost use Rattle.std.specs.Prelude.{◌≡◌, ◌<◌, ◌++◌, ◌∷◌, [], ◌↔◌, IsTrue, IfOk};
ghost use Rattle.std.specs.List.{All};
ghost use Rattle.plan_order.specs.Sets.{is_in, SameSet};
ghost use Rattle.plan_order.specs.Searching.{without};

use sccp_base::{List, OutOfMemory};
use std::alloc::Global;

/// Whether the relay is of the set.
pub(crate) fn is_in(set: &[u8], node: u8) -> bool
    ensures { result ≡ is_in set.now node }
{
    set.contains(&node)
}

/// Whether all relays of the set are before this one in the plan.
pub(crate) fn are_before(set: &[u8], node: u8) -> bool
    ensures { IsTrue result ↔ All (λ own. own < node) set.now }
{
    set.iter().all(|own| *own < node)
}

/// Whether each relay of the one set is of the other.
fn are_in(set: &[u8], other: &[u8]) -> bool
    ensures { IsTrue result ↔ All (λ own. IsTrue (is_in other.now own)) set.now }
{
    set.iter().all(|own| is_in(other, *own))
}

/// Whether both lists have the same relays.
pub(crate) fn are_same(a: &[u8], b: &[u8]) -> bool
    ensures { IsTrue result ↔ SameSet a.now b.now }
{
    are_in(a, b) && are_in(b, a)
}

/// The set of one relay.
pub(crate) fn one(alloc: Global, node: u8) -> Result<List<u8>, OutOfMemory>
    ensures { IfOk result (λ set. set ≡ node ∷ []) }
{
    let mut set = List::new(alloc);
    set.push(node)?;
    Ok(set)
}

/// The set once more.
pub(crate) fn copied(alloc: Global, set: &[u8]) -> Result<List<u8>, OutOfMemory>
    ensures { IfOk result (λ copy. copy ≡ set.now) }
{
    Ok(List::from_vec(Vec::from_slice(alloc, set)?))
}

/// The relays of the one set, and then those of the other.
pub(crate) fn joined(alloc: Global, set: &[u8], more: &[u8]) -> Result<List<u8>, OutOfMemory>
    ensures { IfOk result (λ all. all ≡ set.now ++ more.now) }
{
    let mut all = Vec::new(alloc);
    all.extend_from_slice(set)?;
    all.extend_from_slice(more)?;
    Ok(List::from_vec(all))
}

/// The relays that are left after a step.
pub(crate) fn without(alloc: Global, left: &[u8], step: &[u8]) -> Result<List<u8>, OutOfMemory>
    ensures { IfOk result (λ rest. rest ≡ without left.now step.now) }
{
    let mut rest = List::new(alloc);
    for node in left {
        if !is_in(step, *node) {
            rest.push(*node)?;
        }
    }
    Ok(rest)
}
