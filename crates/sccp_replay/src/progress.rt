//! How far a trace was taken.
use crate::gathered::Gathered;

/// How far a trace was taken: the batch that has begun, and the number of all its lines so far.
#[derive(Drop)]
pub struct Progress {
    pub batch: Gathered,
    pub count: usize,
}
