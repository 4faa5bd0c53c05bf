//! The way back of a service message.
use crate::end::End;
use sccp_base::{List, Octets};
use sccp_scrc::Way;

/// A service message on its way back. One that goes by title has a journey of its own, which begins at the node that returns
/// the message. Another one has an empty path and no end.
#[derive(Drop)]
pub struct Back {
    pub octets: Octets,
    pub way: Way,
    pub path: List<u8>,
    pub end: Option<End>,
}
