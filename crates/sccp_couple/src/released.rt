//! A released message that was received.
use sccp_base::{List, PointCode, Reference};
use sccp_layout::Param;

/// A released message (RLSD, Q.713 section 4.5), with the point that it is from.
#[derive(Drop)]
pub(crate) struct Released<'a> {
    pub origin: PointCode,
    /// The destination local reference.
    pub dlr: Reference,
    /// The source local reference.
    pub slr: Reference,
    /// The release cause (Q.713 section 3.11).
    pub cause: u8,
    pub params: &'a List<Param>,
}
