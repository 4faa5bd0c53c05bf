//! From a rewritten title back to the one that it was made of.
ghost use Rattle.std.specs.Prelude.{◌≡◌, ◌<◌, ◌≤◌, ◌++◌, ℕ, List, length, take, drop, slice_get, Some};
ghost use Rattle.std.specs.Option.{option_copied};
ghost use Rattle.plan_model.specs.Network.{IsPlan};
ghost use Rattle.plan_model.specs.declared.hop.Step.TheVariants.{Sent};
ghost use Rattle.plan_classes.specs.declared.leads.Image.TheVariants.{Next};
ghost use Rattle.plan_classes.specs.Titles.{Titles, IsClass, IsMember, spot_of};
ghost use Rattle.plan_classes.specs.Classes.{Decided, HasImage, class_targets};
ghost use Rattle.plan_classes.specs.Leading.{IsInImage, brought};

use crate::class::Class;
use crate::class_rows::class_row;
use plan_model::Plan;
use plan_rules::Target;
use sccp_base::Digits;

/// The known digits that were stripped, then these digits without those that were put.
fn carried_back(known: &Digits, strip: u8, put: &Digits, digits: &Digits) -> Digits
    requires strip { strip ≤ length known.now }
    requires put { length put.now ≤ length digits.now }
    requires few { length (take strip known.now ++ drop (length put.now) digits.now) ≤ 32 }
    ensures { result ≡ take strip known.now ++ drop (length put.now) digits.now }
{
    let stripped = &known.as_slice()[..usize::from(strip)];
    let kept = &digits.as_slice()[put.len()..];
    match Digits::joined(stripped, kept) {
        Some(back) => back,
        None => unreachable!(),
    }
}

/// The target at a place of the class's row.
fn class_target<'a>(plan: &'a Plan, class: &Class, place: u8) -> Option<&'a Target>
    requires { class.now.node < length plan.now.nodes }
    ensures value { option_copied result ≡ slice_get (class_targets plan.now class.now) place }
    ensures class { IsClass class.now }
    ensures sound { IsPlan plan.now }
{
    match class_row(plan, class) {
        Some(row) => row.target(usize::from(place)),
        None => None,
    }
}

/// The one title of the class whose rewriting by a target is these digits. The class is decided, the target leads it to a next
/// class, and the digits are one of that class's titles. It takes no memory.
pub fn carry_back(plan: &Plan, class: &Class, target: u8, digits: &Digits) -> Digits
    requires node { class.now.node < length plan.now.nodes }
    requires decided { Decided plan.now class.now }
    requires next { IsInImage plan.now class.now target digits.now }
    ensures member { IsMember class.now result }
    ensures leads { (next : Titles) → HasImage plan.now class.now target (Next next)
        → brought plan.now class.now target result ≡ Some (Sent (spot_of next digits.now) target) }
    ensures only { (next : Titles) (other : List ℕ) → IsMember class.now other
        → brought plan.now class.now target other ≡ Some (Sent (spot_of next digits.now) target) → other ≡ result }
{
    match class_target(plan, class, target) {
        Some(Target::Relay { strip, put, .. }) => {
            carried_back(class.known(), *strip, put, digits)
        }
        _ => unreachable!(),
    }
}
