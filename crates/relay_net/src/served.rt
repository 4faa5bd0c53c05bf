//! The answer for one message of a batch.
use crate::travelled::Journey;

/// A message that was routed, with the number of the plan under which it was routed.
#[derive(Drop)]
pub struct Served {
    pub number: u32,
    pub journey: Journey,
}
