//! One item of a file.
use relay_watch::Event;
use sccp_base::Octets;

/// One item of a file: of a text what a line gives, of a capture what one thing in a packet gives.
#[derive(Drop)]
pub enum Item {
    /// Of a text: a message of SCCP from one point to another, whose number is that of the line.
    Seen(Event),
    /// The line is not a DATA message: its number, and that of the first fault in the order of testing.
    Refused(u32, u8),
    /// A point code has more than 14 bits: the number of the line.
    OtherPoint(u32),
    /// SCCP gets no octets: the number of the line.
    NoOctets(u32),
    /// Nothing is said: the line is empty, or its message is one of another service.
    Nothing,
    /// Of a capture: the number of the packet, and a message of SCCP from one point to another. Messages are counted from 1.
    Captured(u64, Event),
    /// Of a capture: the line on what is not such a message, with its line feed; or no octets if nothing is said of it.
    Note(Octets),
}
