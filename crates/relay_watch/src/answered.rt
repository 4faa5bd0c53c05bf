//! Arrivals that were answered.
use crate::waiting::Waiting;

/// An arrival that explains a message, and the number of that message.
#[derive(Drop)]
pub(crate) struct Answered {
    pub arrival: Waiting,
    pub by: u64,
}
