//! The titles that a cover of each plan has.
ghost use Rattle.std.specs.Prelude.{◌≡◌, ◌<◌, ◌≤◌, ◌-◌, ◌↔◌, ◌⊎◌, nat_eq, IsTrue, IfSome, IsSomeAnd, None, length, slice_get};
ghost use Rattle.std.specs.List.{starts_with};
ghost use Rattle.plan_model.specs.declared.spot.Spot.{Spot};
ghost use Rattle.plan_model.specs.Network.{IsCover};
ghost use Rattle.plan_model.specs.Covered.{Covers};
ghost use Rattle.plan_classes.specs.Titles.{HasTitle};
ghost use Rattle.plan_mixed.specs.Pairs.{Meet, place_range, longer, least_of_both, most_of_both, pair, old_of, new_of, shared};

use plan_classes::Class;
use plan_model::{Cover, Plan, Spot};
use sccp_base::Digits;

/// How many places two octets can name. A plan has fewer covers.
const PLACE_RANGE: u32 = 65_536;

/// The number of a pair of covers, which are given by their places in the two plans. A place has two octets, and the number is
/// the old one before the new one, so no two pairs have the same number.
pub fn pair(old: u32, new: u32) -> u32
    requires old { old < place_range }
    requires new { new < place_range }
    ensures { result ≡ pair old new }
{
    old * PLACE_RANGE + new
}

/// The place of the old plan's cover of a pair.
pub fn old_of(number: u32) -> u32
    ensures { result ≡ old_of number }
{
    number / PLACE_RANGE
}

/// The place of the new plan's cover of a pair.
pub fn new_of(number: u32) -> u32
    ensures { result ≡ new_of number }
{
    number % PLACE_RANGE
}

/// The longer of two prefixes.
fn longer(p: &Digits, q: &Digits) -> Digits
    ensures { result ≡ longer p.now q.now }
{
    if p.len() < q.len() { *q } else { *p }
}

/// Whether one of two prefixes begins the other.
fn one_begins(p: &Digits, q: &Digits) -> bool
    ensures { IsTrue result ↔ (IsTrue (starts_with nat_eq p.now q.now) ⊎ IsTrue (starts_with nat_eq q.now p.now)) }
{
    p.starts_with(q) || q.starts_with(p)
}

/// The least number of digits that both covers take: no fewer than the longer prefix has.
fn least_of_both(a: &Cover, b: &Cover) -> u8
    ensures { result ≡ least_of_both a.now b.now }
{
    a.least
        .max(b.least)
        .max(longer(&a.prefix, &b.prefix).count())
}

/// The greatest number of digits that both covers take.
fn most_of_both(a: &Cover, b: &Cover) -> u8
    ensures { result ≡ most_of_both a.now b.now }
{
    a.most.min(b.most)
}

/// Whether some title has both covers.
fn meet(a: &Cover, b: &Cover) -> bool
    ensures { IsTrue result ↔ Meet a.now b.now }
{
    a.node == b.node
        && a.selector == b.selector
        && a.ssn == b.ssn
        && one_begins(&a.prefix, &b.prefix)
        && least_of_both(a, b) <= most_of_both(a, b)
}

/// The titles that both covers have, under a number.
fn shared_by(number: u32, a: &Cover, b: &Cover) -> Class
    requires meet { Meet a.now b.now }
    requires most { a.now.most ≤ 32 }
    ensures { result ≡ shared number a.now b.now }
{
    let digits = longer(&a.prefix, &b.prefix);
    let given = digits.count();
    let first = Spot {
        node: a.node,
        selector: a.selector,
        ssn: a.ssn,
        digits,
    };
    match Class::new(
        number,
        &first,
        least_of_both(a, b).saturating_sub(given),
        most_of_both(a, b).saturating_sub(given),
    ) {
        Some(class) => class,
        None => unreachable!(),
    }
}

/// The cover at a place of a plan.
fn cover_at(plan: &Plan, place: u32) -> &Cover
    requires { place < length plan.now.covers }
    ensures value { slice_get plan.now.covers place ≡ Some result.now }
    ensures sound { IsCover plan.now.nodes result.now }
    ensures few { length plan.now.covers < place_range }
{
    &plan.covers().as_slice()[place as usize]
}

/// The titles that the old plan's cover at place i and the new plan's cover at place j both have. The class has the pair's
/// number in place of a cover's. The result is `None` exactly if no title has both. It takes no memory.
pub fn shared(old: &Plan, new: &Plan, i: u32, j: u32) -> Option<Class>
    requires old { i < length old.now.covers }
    requires new { j < length new.now.covers }
    ensures some { IsSomeAnd (slice_get old.now.covers i)
        (λ a. IsSomeAnd (slice_get new.now.covers j) (λ b. IfSome result (λ c. Meet a b × (c ≡ shared (pair i j) a b)))) }
    ensures exact { IsSomeAnd (slice_get old.now.covers i)
        (λ a. IsSomeAnd (slice_get new.now.covers j) (λ b. IfSome result (λ c. (spot : Spot) → HasTitle c spot
        ↔ (Covers a spot × Covers b spot)))) }
    ensures none { IsSomeAnd (slice_get old.now.covers i) (λ a. IsSomeAnd (slice_get new.now.covers j) (λ b. result ≡ None → Meet a b
        → ⊥)) }
    ensures apart { IsSomeAnd (slice_get old.now.covers i) (λ a. IsSomeAnd (slice_get new.now.covers j) (λ b. result ≡ None → (spot : Spot)
        → Covers a spot → Covers b spot → ⊥)) }
    ensures node { IfSome result (λ c. c.node < length old.now.nodes) }
{
    let a = cover_at(old, i);
    let b = cover_at(new, j);
    if meet(a, b) {
        Some(shared_by(pair(i, j), a, b))
    } else {
        None
    }
}
