//! The titles of a cover, and the least title of a class.
ghost use Rattle.std.specs.Prelude.{◌≡◌, ◌<◌, ◌≤◌, ◌↔◌, length, IsSomeAnd, slice_get, Some};
ghost use Rattle.plan_model.specs.declared.spot.Spot.{Spot};
ghost use Rattle.plan_model.specs.Network.{IsCover};
ghost use Rattle.plan_model.specs.Covered.{Covers};
ghost use Rattle.plan_classes.specs.Titles.{IsMember, IsLongest, HasTitle};
ghost use Rattle.plan_classes.specs.Classes.{start_of, sample_of};

use crate::class::Class;
use plan_model::{Cover, Plan, Spot};
use sccp_base::Digits;

/// The cover at a place of the plan.
fn cover_at(plan: &Plan, place: u32) -> &Cover
    requires { place < length plan.now.covers }
    ensures value { slice_get plan.now.covers place ≡ Some result.now }
    ensures sound { IsCover plan.now.nodes result.now }
{
    &plan.covers().as_slice()[place as usize]
}

/// The titles of a cover with this place.
fn class_of(place: u32, cover: &Cover) -> Class
    requires range { cover.now.least ≤ cover.now.most }
    requires room { length cover.now.prefix ≤ cover.now.most }
    requires most { cover.now.most ≤ 32 }
    ensures { result ≡ start_of place cover.now }
{
    let given = cover.prefix.count();
    let first = Spot {
        node: cover.node,
        selector: cover.selector,
        ssn: cover.ssn,
        digits: cover.prefix,
    };
    match Class::new(
        place,
        &first,
        cover.least.saturating_sub(given),
        cover.most.saturating_sub(given),
    ) {
        Some(class) => class,
        None => unreachable!(),
    }
}

/// The titles of the cover at this place of the plan: its prefix is the known digits. If the cover's least is below its
/// prefix's length, the class's least is 0.
pub fn start(plan: &Plan, cover: u32) -> Class
    requires { cover < length plan.now.covers }
    ensures value { IsSomeAnd (slice_get plan.now.covers cover) (λ c. result ≡ start_of cover c) }
    ensures exact { IsSomeAnd (slice_get plan.now.covers cover) (λ c. (spot : Spot) → HasTitle result spot ↔ Covers c spot) }
{
    class_of(cover, cover_at(plan, cover))
}

/// The least title of the class: its known digits, and then as few zeros as may follow.
pub fn sample(class: &Class) -> Digits
    ensures value { result ≡ sample_of class.now }
    ensures member { IsMember class.now result }
{
    class.known().with_zeros(class.least())
}

/// The longest title of the class that has only zeros after the known digits.
pub fn longest(class: &Class) -> Digits
    ensures { IsLongest class.now result }
{
    class.known().with_zeros(class.most())
}
