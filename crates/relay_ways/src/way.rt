//! The ways in which a node can send something.
use crate::condition::Condition;
use sccp_base::{Octets, PointCode};

/// A message of SCCP that leaves a node, and the point that it goes to.
#[derive(Drop)]
pub struct Sending {
    pub to: PointCode,
    pub octets: Octets,
}

/// A way in which a node can send something because of an arrival: what it sends, and the condition under which it does.
#[derive(Drop)]
pub struct Way {
    pub condition: Condition,
    pub sending: Sending,
}
