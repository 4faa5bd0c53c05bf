//! The segments of a message.
use sccp_base::{Octets, Reference};

/// A segment of the data of a connectionless message (Q.713 section 3.17, Q.714 section 4.1).
#[derive(Drop)]
pub struct Segment {
    /// Whether it is the first one of its message.
    pub first: bool,
    /// Whether the message is to be delivered in sequence, as class 1 is.
    pub in_sequence: bool,
    /// The number of segments that follow it, up to 15.
    pub remaining: u8,
    /// The segmentation local reference, which the segments of one message have in common.
    pub reference: Reference,
    pub payload: Octets,
}
