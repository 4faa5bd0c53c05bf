//! A connection request that was received.
use sccp_address::Address;
use sccp_base::{List, PointCode, Reference};
use sccp_layout::Param;

/// A connection request (CR, Q.713 section 4.2), with the point that it is from.
#[derive(Drop)]
pub(crate) struct ConnectionRequest<'a> {
    pub origin: PointCode,
    /// The source local reference.
    pub slr: Reference,
    pub class: u8,
    pub called: &'a Address,
    pub params: &'a List<Param>,
}
