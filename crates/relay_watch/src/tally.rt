//! What is kept of a relay while messages are judged.
use crate::counts::Counts;
use relay_ways::Condition;
use sccp_base::List;

/// The counts of a relay, how often each target of each row was taken, and the condition of its last marking: what the messages
/// have in common that this marking explains.
#[derive(Drop)]
pub struct Tally {
    pub counts: Counts,
    /// A list for each row of the relay's table, with a count for each target of the row.
    pub taken: List<List<u64>>,
    pub so_far: Option<Condition>,
}
