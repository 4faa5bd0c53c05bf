//! What the search finds of one class.
use crate::trace::Trace;

/// What the search found of a class.
#[derive(Drop)]
pub(crate) enum Found {
    /// The class has this rank.
    Rank(u8),
    /// One of its titles has a bad route.
    Bad(Trace),
    /// The plan reaches too many classes.
    Wide,
}
