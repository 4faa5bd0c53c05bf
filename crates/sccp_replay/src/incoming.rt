//! A message that arrives at a node.
use sccp_base::{Octets, PointCode};

/// A message that arrives at a node from outside: the place of the node, the point that it is from, its octets.
#[derive(Drop)]
pub struct Incoming {
    pub entry: u8,
    pub origin: PointCode,
    pub octets: Octets,
}
