//! The arrivals that wait for what their relays send.
use sccp_base::{Octets, PointCode};

/// A message that arrived at a relay, because of which the relay may still send something. It has the number, the origin and the
/// octets of its event, the place of the relay in the plan, and the message's data. It is due if the relay sends something because
/// of it with nothing prohibited.
#[derive(Drop)]
pub struct Waiting {
    pub number: u64,
    pub node: u8,
    pub origin: PointCode,
    pub octets: Octets,
    pub payload: Octets,
    pub due: bool,
}
