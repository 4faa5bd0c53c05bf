//! A relay that cannot be next.
use plan_change::Change;

/// A relay that cannot be given the new plan next.
#[derive(Drop)]
pub struct Stuck {
    /// Its place in the plan.
    pub node: u8,
    /// The bad mixed route that shows it, as `Change::Broken`.
    pub why: Change,
}
