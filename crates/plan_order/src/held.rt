//! A relay on a route.
use plan_mixed::Which;

/// A relay that was on a route, and the plan that it held.
#[derive(Clone, Copy)]
pub(crate) struct Held {
    /// Its place in the plan.
    pub node: u8,
    pub which: Which,
}
