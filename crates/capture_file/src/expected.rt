//! What is read next of a capture file.
use crate::order::Order;

/// What is read next of a capture file.
#[derive(Clone, Copy)]
pub enum Expected {
    /// The beginning of the file.
    Heading,
    /// A record of a pcap file, with the order of its numbers and the link type.
    NextRecord(Order, u16),
    /// A block of a pcapng file.
    NextBlock,
    /// So many octets of a block, then its second length, which has to be this one. The block began at that place.
    BlockRest(u32, u32, u64),
}
