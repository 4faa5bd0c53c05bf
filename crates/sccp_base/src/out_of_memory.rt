//! What is reported when memory runs out.
use std::alloc::{AllocError, AllocFailed};

/// Memory ran out. Of all answers, only this one has no cause that a contract names.
#[derive(Clone, Copy, Debug)]
pub struct OutOfMemory;

impl From<AllocError> for OutOfMemory {
    fn from(_error: AllocError) -> OutOfMemory {
        OutOfMemory
    }
}

impl<T: Drop> From<AllocFailed<T>> for OutOfMemory {
    fn from(_error: AllocFailed<T>) -> OutOfMemory {
        OutOfMemory
    }
}
