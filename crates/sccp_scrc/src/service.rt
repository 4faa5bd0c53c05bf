//! The service messages that return data to its sender.
use crate::way::Way;
use sccp_base::Octets;

/// A service message: the returned message, with the return cause in place of the protocol class (Q.714 section 4.2).
#[derive(Drop)]
pub struct Service {
    pub octets: Octets,
    pub way: Way,
}
