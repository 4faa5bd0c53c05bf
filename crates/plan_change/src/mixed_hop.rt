//! One hop of a mixed route.
use plan_mixed::Which;
use plan_model::Hop;

/// A hop, and the plan that its relay held.
#[derive(Drop)]
pub struct MixedHop {
    pub which: Which,
    pub hop: Hop,
}
