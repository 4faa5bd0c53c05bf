//! What batches run on.
use std::alloc::Global;

/// What batches run on: the runtime, which gives them threads, the gate of their workers, and the allocator.
#[derive(Drop)]
pub struct Host<'a, R, G> {
    pub rt: &'a R,
    pub gate: &'a G,
    pub alloc: Global,
}
