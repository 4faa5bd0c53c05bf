//! A connection confirm that was received.
use sccp_base::{List, PointCode, Reference};
use sccp_layout::Param;

/// A connection confirm (CC, Q.713 section 4.3), with the point that it is from.
#[derive(Drop)]
pub(crate) struct ConnectionConfirm<'a> {
    pub origin: PointCode,
    /// The destination local reference.
    pub dlr: Reference,
    /// The source local reference.
    pub slr: Reference,
    pub class: u8,
    pub params: &'a List<Param>,
}
