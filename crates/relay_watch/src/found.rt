//! What a search among the arrivals that wait finds.
use relay_ways::Explanation;
use sccp_base::List;

/// An arrival that explains a message: its place among those that wait, its number, and the ways in which it does.
#[derive(Drop)]
pub(crate) struct Found {
    pub place: usize,
    pub by: u64,
    pub ways: List<Explanation>,
}
