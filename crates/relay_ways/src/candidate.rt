//! What a node would send because of an arrival, were a marking to allow it.
use sccp_base::{Octets, PointCode};

/// A message that a node would send if one of its targets were taken, or if it returned what arrived for a cause. `cause` is the
/// return cause of a service message.
#[derive(Drop)]
pub struct Candidate {
    pub cause: Option<u8>,
    pub to: PointCode,
    pub octets: Octets,
}
