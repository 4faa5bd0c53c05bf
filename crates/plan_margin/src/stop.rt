//! A stopped title.
use plan_model::{Hop, Spot};
use sccp_base::{List, Marking};

/// A title that does not arrive, and its route. All relays hold the same marks: those of what is lost.
#[derive(Drop)]
pub struct Stop {
    pub spot: Spot,
    /// The losses, fourteen times: once for each hop that a route may have.
    pub markings: List<Marking>,
    pub hops: List<Hop>,
}
