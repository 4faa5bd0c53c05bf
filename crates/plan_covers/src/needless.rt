//! Covers that add nothing to another cover.
ghost use Rattle.std.specs.Prelude.{◌≡◌, ◌<◌, ◌≤◌, ◌↔◌, ℕ, IsTrue, IfOk, IfSome, None, Some, length, max, Contains};
ghost use Rattle.std.specs.List.{All};
ghost use Rattle.plan_covers.specs.Keys.{key_of, IsOrder};
ghost use Rattle.plan_covers.specs.Firsts.{IsFirstOf, earlier};
ghost use Rattle.plan_covers.specs.Needless.{fewest, IsWithin, AddsNothing, IsNeedlessBy, IsFirstNeedlessBy, AreNeedless};

use crate::cover_key::CoverKey;
use crate::cover_order::{PlacedKey, count_below, order_of};
use plan_model::{Cover, Plan};
use sccp_base::{List, OutOfMemory, PointCode};
use std::alloc::Global;

/// A cover that adds nothing to another one, by their places in the plan.
#[derive(Clone, Copy)]
pub struct Needless {
    /// The place of the cover.
    pub cover: u16,
    /// The place of the first cover to which it adds nothing.
    pub within: u16,
}

/// The fewest digits that a title of the cover has.
fn fewest(cover: &Cover) -> u8
    ensures { result ≡ fewest cover.now }
{
    cover.least.max(cover.prefix.count())
}

/// Whether each title of the first cover is one of the second.
fn is_within(a: &Cover, b: &Cover) -> bool
    ensures { IsTrue result ↔ IsWithin a.now b.now }
{
    a.node == b.node
        && a.selector == b.selector
        && a.ssn == b.ssn
        && a.prefix.starts_with(&b.prefix)
        && b.least <= fewest(a)
        && a.most <= b.most
}

/// Whether a cover allows each of some places.
fn allows_all(cover: &Cover, places: &[(PointCode, u8)]) -> bool
    ensures { IsTrue result ↔ All (λ place. Contains cover.now.allowed place) places.now }
{
    for place in places {
        if !allows(cover, place) {
            return false;
        }
    }
    true
}

fn allows(cover: &Cover, place: &(PointCode, u8)) -> bool
    ensures { IsTrue result ↔ Contains cover.now.allowed place.now }
{
    cover.allows(place.0, place.1)
}

/// Whether the first cover asks for nothing that the second does not ask for.
fn adds_nothing(a: &Cover, b: &Cover) -> bool
    ensures { IsTrue result ↔ AddsNothing a.now b.now }
{
    if !is_within(a, b) {
        return false;
    }
    allows_all(a, b.allowed.as_slice())
}

/// Whether the cover at a place adds nothing to the one at another place. Of two that add nothing to each other only the later
/// one is needless.
fn is_needless_by(covers: &[Cover], place: usize, other: usize) -> bool
    requires place { place < length covers.now }
    requires other { other < length covers.now }
    ensures { IsTrue result ↔ IsNeedlessBy covers.now place other }
{
    if place == other {
        return false;
    }
    if !adds_nothing(&covers[place], &covers[other]) {
        return false;
    }
    if other < place {
        return true;
    }
    !adds_nothing(&covers[other], &covers[place])
}

/// The first place of a cover with this key to which the one at a place adds nothing. The covers with one key follow each other in
/// the order, and so do their places.
fn first_with_key(
    covers: &[Cover],
    order: &[PlacedKey],
    place: usize,
    key: &CoverKey,
) -> Option<usize>
    requires order { IsOrder covers.now order.now }
    requires place { place < length covers.now }
    ensures { IsFirstOf (λ other. key_of other ≡ key.now) covers.now place result }
{
    let below = count_below(order, key);
    for next in below..order.len() {
        let placed = &order[next];
        if key.is_below(&placed.key) {
            return None;
        }
        if is_needless_by(covers, place, placed.place) {
            return Some(placed.place);
        }
    }
    None
}

/// The earlier of two places.
fn earlier(a: Option<usize>, b: Option<usize>) -> Option<usize>
    ensures { result ≡ earlier a b }
{
    match (a, b) {
        (Some(a), Some(b)) => Some(a.min(b)),
        (Some(a), None) => Some(a),
        (None, b) => b,
    }
}

/// The first place of a cover to which the one at a place adds nothing. Such a cover has the same key but for the prefix, which
/// begins that of the one at the place. So it is looked up under each of those beginnings.
fn first_within(covers: &[Cover], order: &[PlacedKey], place: usize) -> Option<usize>
    requires order { IsOrder covers.now order.now }
    requires place { place < length covers.now }
    ensures found { IfSome result (IsFirstNeedlessBy covers.now place) }
    ensures none { result ≡ None → (i : ℕ) → IsNeedlessBy covers.now place i → ⊥ }
{
    let cover = &covers[place];
    let mut first = None;
    for count in 0..cover.prefix.len() + 1 {
        let key = CoverKey::of_front(cover, count);
        first = earlier(first, first_with_key(covers, order, place, &key));
    }
    first
}

/// The covers of a plan that add nothing to another cover, in the order of the plan, each with the first such other one. Of covers
/// that add nothing to each other, as equal ones, the first is not listed.
pub fn needless_covers(alloc: Global, plan: &Plan) -> Result<List<Needless>, OutOfMemory>
    ensures { IfOk result (AreNeedless plan.now.covers) }
{
    list_needless(alloc, plan.covers().as_slice())
}

fn list_needless(alloc: Global, covers: &[Cover]) -> Result<List<Needless>, OutOfMemory>
    requires { length covers.now ≤ 65535 }
    ensures { IfOk result (AreNeedless covers.now) }
{
    let order = order_of(alloc, covers)?;
    let order = order.as_slice();
    let mut found = List::new(alloc);
    for place in 0..covers.len() {
        if let Some(within) = first_within(covers, order, place) {
            found.push(Needless {
                cover: place as u16,
                within: within as u16,
            })?;
        }
    }
    Ok(found)
}
