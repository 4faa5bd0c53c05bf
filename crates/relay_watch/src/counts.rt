//! What is counted of a relay.

/// The counts of a relay. A count stops at 2^64 - 1.
#[derive(Clone, Copy)]
pub struct Counts {
    /// Messages that arrived, beside the `others`.
    pub arrived: u64,
    /// Messages that the relay sent, beside the `others`: those of the next three counts together.
    pub sent: u64,
    /// Those that it sends with nothing held prohibited.
    pub plain: u64,
    /// Those that are explained only by something prohibited.
    pub failing: u64,
    /// Those that no arrival explains.
    pub unexplained: u64,
    /// Arrivals that nothing answered.
    pub unanswered: u64,
    /// Messages of management and of the relay's own users, connection-oriented ones, and what is no message.
    pub others: u64,
    /// The least number of markings, one after the other, under which the relay sends what is explained by the told ways.
    pub markings: u64,
}
