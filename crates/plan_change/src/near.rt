//! The covers of a plan that may share titles with a cover, by the order of their keys.
ghost use Rattle.std.specs.Prelude.{◌≡◌, ◌↔◌, IsTrue, IfOk, OnOk};
ghost use Rattle.std.specs.Ordering.{nat_cmp};
ghost use Rattle.std.specs.List.Sorted.{IsSorted};
ghost use Rattle.plan_covers.specs.Keys.{key_of, placed_cmp};
ghost use Rattle.plan_change.specs.Near.{Begins, AreNear, HasPlacesOf, StayAmong};

use plan_covers::{CoverKey, PlacedKey, count_below};
use plan_model::Cover;
use sccp_base::OutOfMemory;
use std::alloc::Global;

/// Whether the first key begins the second one.
fn begins(key: &CoverKey, longer: &CoverKey) -> bool
    ensures { IsTrue result ↔ Begins key.now longer.now }
{
    key.node == longer.node
        && key.selector == longer.selector
        && key.ssn == longer.ssn
        && longer.prefix.starts_with(&key.prefix)
}

/// Adds the places of the covers with this key. In the order they follow each other.
fn add_with_key(
    order: &[PlacedKey],
    key: &CoverKey,
    places: &mut Vec<usize>,
) -> Result<(), OutOfMemory>
    requires { IsSorted placed_cmp order.now }
    ensures stay { OnOk result (StayAmong places.old.items places.new.items) }
    ensures all { OnOk result (HasPlacesOf (λ k. k ≡ key.now) order.now places.new.items) }
{
    let below = count_below(order, key);
    for next in below..order.len() {
        let placed = &order[next];
        if key.is_below(&placed.key) {
            return Ok(());
        }
        places.push(placed.place)?;
    }
    Ok(())
}

/// Adds the places of the covers whose keys this one begins. They follow each other, too: what begins a key begins each key between
/// the two.
fn add_longer(
    order: &[PlacedKey],
    key: &CoverKey,
    places: &mut Vec<usize>,
) -> Result<(), OutOfMemory>
    requires { IsSorted placed_cmp order.now }
    ensures stay { OnOk result (StayAmong places.old.items places.new.items) }
    ensures all { OnOk result (HasPlacesOf (Begins key.now) order.now places.new.items) }
{
    let below = count_below(order, key);
    for next in below..order.len() {
        let placed = &order[next];
        if !begins(key, &placed.key) {
            return Ok(());
        }
        places.push(placed.place)?;
    }
    Ok(())
}

/// The places of the covers that may share titles with a cover: one of the two prefixes begins the other. They ascend. It takes a
/// look-up for each digit of the prefix.
pub(crate) fn near_places(
    alloc: Global,
    order: &[PlacedKey],
    cover: &Cover,
) -> Result<Vec<usize>, OutOfMemory>
    requires { IsSorted placed_cmp order.now }
    ensures near { IfOk result (λ places. HasPlacesOf (AreNear (key_of cover.now)) order.now places.items) }
    ensures ascend { IfOk result (λ places. IsSorted nat_cmp places.items) }
{
    let mut places = Vec::new(alloc);
    for count in 0..cover.prefix.len() {
        let key = CoverKey::of_front(cover, count);
        add_with_key(order, &key, &mut places)?;
    }
    let key = CoverKey::of(cover);
    add_longer(order, &key, &mut places)?;
    places.sort_unstable();
    Ok(places)
}
