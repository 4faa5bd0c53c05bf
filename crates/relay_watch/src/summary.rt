//! What is said at the end of a capture.
use crate::tally::Tally;
use crate::unanswered::Unanswered;
use sccp_base::List;

/// What a watch leaves. `relays` has an item for each relay of the plan, in the plan's order. `events` counts the messages that were
/// judged, and `unexplained` those of them that are unexplained.
#[derive(Drop)]
pub struct Summary {
    /// The arrivals that still waited and that nothing answered, in the order in which they arrived.
    pub unanswered: List<Unanswered>,
    pub relays: List<Tally>,
    pub events: u64,
    pub unexplained: u64,
}
