//! What one thing in a packet gives.
use capture_trace::Kind;
use sccp_base::{Octets, PointCode};

/// What one thing in a packet gives.
#[derive(Drop)]
pub enum Entry {
    /// A message of SCCP: its origin, its destination, and its octets.
    Message(PointCode, PointCode, Octets),
    /// What it is counted as, and the line on it, with its line feed; or no octets if nothing is said of it.
    Note(Kind, Octets),
}
