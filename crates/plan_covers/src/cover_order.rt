//! Covers in the order of their keys.
ghost use Rattle.std.specs.Prelude.{◌≡◌, ◌<◌, ◌≤◌, IfOk, length, true, false};
ghost use Rattle.std.specs.List.Sorted.{IsSorted, IsPartitionPoint};
ghost use Rattle.std.specs.Ordering.{is_lt};
ghost use Rattle.plan_covers.specs.Keys.{HasKeys, IsOrder, key_cmp, placed_cmp};

use crate::cover_key::CoverKey;
use plan_model::Cover;
use sccp_base::OutOfMemory;
use std::alloc::Global;

/// A cover's key, with the cover's place in the plan. They are ordered by these fields as they are written.
#[derive(Clone, Copy, PartialEq, Eq, PartialOrd, Ord)]
pub struct PlacedKey {
    pub key: CoverKey,
    pub place: usize,
}

/// The keys of covers in their order, each with its cover's place.
pub fn order_of(alloc: Global, covers: &[Cover]) -> Result<Vec<PlacedKey>, OutOfMemory>
    ensures { IfOk result (λ order. IsOrder covers.now order.items) }
{
    let mut order = keys_of(alloc, covers)?;
    order.sort_unstable();
    Ok(order)
}

/// The keys of covers in the order of the covers.
fn keys_of(alloc: Global, covers: &[Cover]) -> Result<Vec<PlacedKey>, OutOfMemory>
    ensures { IfOk result (λ keys. HasKeys covers.now (length covers.now) keys.items) }
{
    let mut keys = Vec::with_capacity(alloc, covers.len())?;
    for (place, cover) in covers.iter().enumerate() {
        let key = CoverKey::of(cover);
        keys.push(PlacedKey { key, place })?;
    }
    Ok(keys)
}

/// How many of the keys, which are in order, are below this one. The keys are halved until one is left.
pub fn count_below(order: &[PlacedKey], key: &CoverKey) -> usize
    requires { IsSorted placed_cmp order.now }
    ensures limit { result ≤ length order.now }
    ensures parted { IsPartitionPoint (λ p. is_lt (key_cmp p.key key.now) ≡ true) (λ p. is_lt (key_cmp p.key key.now) ≡ false)
        order.now result }
{
    order.partition_point(
        |placed: &PlacedKey| -> bool
            ensures { result ≡ is_lt (key_cmp placed.now.key key.entry.now) }
        { placed.key.is_below(key) },
    )
}
