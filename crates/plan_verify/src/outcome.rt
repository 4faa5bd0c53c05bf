//! What the search finds of all covers.
use crate::trace::Trace;

/// The cover whose start has the greatest rank, and that rank.
#[derive(Clone, Copy)]
pub(crate) struct Greatest {
    pub cover: u32,
    pub rank: u8,
}

/// What the search found of all covers.
#[derive(Drop)]
pub(crate) enum Outcome {
    /// All starts have ranks.
    Ranked(Greatest),
    /// A title of this cover has a bad route.
    Refuted(u32, Trace),
    /// The plan reaches too many classes.
    TooMany,
}
