//! The route that shows a bound to be the smallest.
use plan_model::Spot;
use sccp_base::{List, Marking};

/// A title at a relay, and the marking of each relay on its route: one for each hop.
#[derive(Drop)]
pub struct Longest {
    pub spot: Spot,
    pub markings: List<Marking>,
}
