//! The outcome of a connection.
use sccp_base::{List, Name, Octets, PointCode};

/// What went over a connection, and what is left of it.
#[derive(Drop)]
pub struct Through {
    /// The octets that the far end was handed.
    pub forth: Octets,
    /// The octets that the end was handed that requested the connection.
    pub back: Octets,
    /// The number of connection sections of all relays together after the release.
    pub sections: u32,
}

/// The outcome of a connection.
#[derive(Drop)]
pub enum Outcome {
    /// A link still held a message after 64 deliveries for each message that was offered.
    Unsettled,
    /// The connection was neither opened nor refused.
    Unanswered,
    /// It was refused, with this refusal cause (Q.713 section 3.15).
    Refused(u8),
    /// It was open over the relays of these names, in order, to the end at this point. What went over it is missing if a link
    /// still held a message after 64 deliveries for each message that was offered.
    Opened(List<Name>, PointCode, Option<Through>),
}
