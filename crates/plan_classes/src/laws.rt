//! Laws of classes.
ghost use Rattle.std.specs.Prelude.{◌≡◌, ◌≤◌, ℕ, true, Some, slice_get};
ghost use Rattle.std.specs.Ordering.{is_eq};
ghost use Rattle.std.specs.Cmp.{IsTotalOrder};
ghost use Rattle.plan_model.specs.declared.cover.Cover.{Cover};
ghost use Rattle.plan_model.specs.Alone.{alone};
ghost use Rattle.plan_model.specs.Network.{Network};
ghost use Rattle.plan_classes.specs.Titles.{Titles};
ghost use Rattle.plan_classes.specs.Classes.{ReachesAtLeast};
ghost use Rattle.plan_classes.specs.Order.{class_cmp};

/// A plan that reaches at least `more` classes reaches at least each smaller number of them.
pub fn reaches_fewer()
    ensures { (plan : Network) (more fewer : ℕ) → fewer ≤ more → ReachesAtLeast plan more → ReachesAtLeast plan fewer }
{}

/// A plan reaches at least as many classes as it does with one of its covers alone.
pub fn alone_reaches_fewer()
    ensures { (plan : Network) (number : ℕ) (cover : Cover) (count : ℕ) → slice_get plan.covers number ≡ Some cover
        → ReachesAtLeast (alone plan cover) count → ReachesAtLeast plan count }
{}

/// The order of classes is total, and only equal classes have one place in it.
pub fn classes_are_ordered()
    ensures total { IsTotalOrder class_cmp }
    ensures ties { (a b : Titles) → is_eq (class_cmp a b) ≡ true → a ≡ b }
{}
