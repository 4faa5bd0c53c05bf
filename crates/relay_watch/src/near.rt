//! How near an arrival comes to explaining a message.
use relay_ways::Reason;

/// The number of an arrival, and the first test that the message fails.
#[derive(Clone, Copy)]
pub(crate) struct Near {
    pub number: u64,
    pub reason: Reason,
}
