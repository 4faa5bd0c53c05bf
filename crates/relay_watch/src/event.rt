//! The messages that are judged.
use sccp_base::{Octets, PointCode};

/// A message of SCCP that was captured on its way from one point to another. Its number tells it from the others, such as the
/// number of its line.
#[derive(Drop)]
pub struct Event {
    pub number: u64,
    pub origin: PointCode,
    pub destination: PointCode,
    pub octets: Octets,
}
