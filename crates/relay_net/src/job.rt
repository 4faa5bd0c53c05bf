//! A message of a batch that is to be routed.
use sccp_base::{Octets, PointCode};

/// A message that is to be routed, with its place among those of its batch. It has the node at which it arrives, the point
/// from which it arrives, and its octets.
#[derive(Drop)]
pub struct Job {
    pub index: u32,
    pub entry: u8,
    pub origin: PointCode,
    pub octets: Octets,
}
