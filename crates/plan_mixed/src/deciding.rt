//! A class under both plans.
ghost use Rattle.std.specs.Prelude.{◌≡◌, ◌<◌, length, IsTrue, ◌↔◌};
ghost use Rattle.plan_classes.specs.Titles.{IsClass};
ghost use Rattle.plan_mixed.specs.Mixed.{held, BothDecided};

use crate::which::Which;
use plan_classes::{Class, decided};
use plan_model::Plan;

/// The plan that a relay holds.
pub fn held<'a>(old: &'a Plan, new: &'a Plan, which: Which) -> &'a Plan
    ensures { result.now ≡ held old.now new.now which }
{
    match which {
        Which::Old => old,
        Which::New => new,
    }
}

/// Whether each plan has one row, or none, for all titles of the class.
pub fn decided_by_both(old: &Plan, new: &Plan, class: &Class) -> bool
    requires old { class.now.node < length old.now.nodes }
    requires new { class.now.node < length new.now.nodes }
    ensures decided { IsTrue result ↔ BothDecided old.now new.now class.now }
    ensures class { IsClass class.now }
{
    decided(old, class) && decided(new, class)
}
