//! One unit of a capture file, as it is read from the octets that are there.
use crate::expected::Expected;
use crate::file_fault::FileFault;
use crate::held::BadPacket;
use crate::order::Order;

/// The packet in a unit: its link type, the length that it had before it was captured, and its captured octets; or why a
/// block has none.
#[derive(Clone, Copy)]
pub enum Content<'a> {
    NoPacket,
    Whole(u16, u32, &'a [u8]),
    Missing(BadPacket),
}

/// What a unit changes of the section: it begins a new one, or describes one interface more by its link type and snap length.
#[derive(Clone, Copy)]
pub enum Change {
    Stays,
    NewSection(Order),
    NewInterface(u16, u32),
}

/// A whole unit: what is in it, the number of its octets, what it changes, and what is read after it.
#[derive(Clone, Copy)]
pub struct UnitRead<'a> {
    pub content: Content<'a>,
    pub used: usize,
    pub change: Change,
    pub next: Expected,
}

/// A unit as far as it can be read: it is whole; or so many octets from its beginning on are needed to read it further; or it
/// cannot be read.
#[derive(Clone, Copy)]
pub enum Reading<'a> {
    Read(UnitRead<'a>),
    Unfinished(usize),
    Refused(FileFault),
}
