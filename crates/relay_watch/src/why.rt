//! Why no arrival explains a message.
use relay_ways::Reason;

/// Why a message that a relay sent is unexplained.
#[derive(Clone, Copy)]
pub enum Why {
    /// The arrival with this number waits and has the message's data, and this is the first test that the message fails. No other
    /// such arrival passes more tests, and no earlier one as many.
    By { number: u64, reason: Reason },
    /// The arrival that explains it was answered already by the message with this number.
    Again(u64),
    /// None of these: there is no arrival with its data.
    NoArrival,
}
