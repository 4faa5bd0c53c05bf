//! The rule under which plans are published, and what each of its steps makes known.
ghost use Rattle.std.specs.Prelude.{◌≡◌};
ghost use Rattle.std.specs.Arc.{arc_value};
ghost use Rattle.live_plan.specs.Published.{Kept, Saw, newcomer, begun, advanced};

use crate::known::Known;
use crate::published::Published;
use atomic_table::{Join, Split};
use crossbeam_utils::rule::{Outcome, Protocol};

/// The plan that is shown is in the list of its batch, and everyone who knows the batch knows that list.
pub struct ByBatch;

impl Protocol<Published, Known> for ByBatch {
    ghost holds = { λ p. Kept (arc_value p.shown) };

    ghost first = { newcomer };
}

/// A reader looks at what is shown.
pub(crate) struct Sees;

impl Outcome<Published, Known> for Sees {
    ghost then = { λ v _ y w. Saw v (arc_value y.shown) w };
}

/// The publisher begins a batch.
pub(crate) struct Begins;

impl Outcome<Published, Known> for Begins {
    ghost then = { λ v _ y w. w ≡ begun v (arc_value y.shown) };
}

/// The publisher shows the next plan of the batch.
pub(crate) struct Advances;

impl Outcome<Published, Known> for Advances {
    ghost then = { λ v _ y w. w ≡ advanced v (arc_value y.shown) };
}

/// The publisher passes on all that it knows, and a reader learns it.
pub(crate) struct Whole;

impl Split<Known> for Whole {
    ghost left = { λ v. v };

    ghost right = { λ v. v };
}

impl Join<Known> for Whole {
    ghost both = { λ _ w. w };

    ghost spent = { newcomer };
}
