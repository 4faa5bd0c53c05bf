//! The outcome of a step.
ghost use Rattle.std.specs.Prelude.{◌≡◌};
ghost use Rattle.plan_order.specs.Searching.{outcome_of};

use plan_change::Change;

/// What the walk of a step finds.
#[derive(Clone, Copy)]
pub(crate) enum Outcome {
    /// It is safe for this bound.
    Safe(u8),
    /// Some mixed route of it is bad.
    Refused,
    /// It reaches too many classes.
    Wide,
}

/// What this answer says of the step.
pub(crate) fn outcome_of(change: &Change) -> Outcome
    ensures { result ≡ outcome_of change.now }
{
    match change {
        Change::Kept { bound, .. } => Outcome::Safe(*bound),
        Change::Broken { .. } => Outcome::Refused,
        Change::TooWide => Outcome::Wide,
    }
}
