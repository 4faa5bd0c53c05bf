//! A step of a changeover.
use sccp_base::List;

/// Relays that are given the new plan in any order.
#[derive(Drop)]
pub struct SafeStep {
    /// The places of the relays, in the order of the plan.
    pub nodes: List<u8>,
    /// The number of hops within which each title goes well meanwhile. A mixed route has as many; it is 0 if no title is covered by
    /// both plans.
    pub bound: u8,
}
