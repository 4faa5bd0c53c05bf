//! What becomes of what a DATA message carries.

/// What becomes of what a DATA message, or a message of MTP3, carries. It is the first that holds.
#[derive(Clone, Copy)]
pub enum Imported<'a> {
    /// The octets are not a DATA message: the number of the first fault, in the order of testing.
    Refused(u8),
    /// The service indicator is this one, and not that of SCCP.
    OtherService(u8),
    /// A point code has more than 14 bits.
    OtherPoint,
    /// No node of the plan has the destination's point code.
    UnknownNode,
    /// SCCP gets no octets.
    NoOctets,
    /// The name of the node that it is for, the point from which it arrives, and the octets for SCCP.
    Message(&'a [u8], u32, &'a [u8]),
}
