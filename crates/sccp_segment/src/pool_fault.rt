//! The faults of a pool.
ghost use Rattle.std.specs.Prelude.{◌≡◌};
ghost use Rattle.sccp_segment.specs.declared.pool_fault.PoolFault.TheVariants as faults;

use sccp_base::OutOfMemory;
use std::alloc::{AllocError, AllocFailed};

/// Why a pool refuses a segment. It is then as it was.
#[derive(Clone, Copy, Debug)]
pub enum PoolFault {
    /// The segment would start a message while 64 others are under way.
    Full,
    /// There was no memory for the data.
    OutOfMemory,
}

impl From<OutOfMemory> for PoolFault {
    ghost from_gives = { λ _ e. e ≡ faults.OutOfMemory };

    fn from(_e: OutOfMemory) -> PoolFault {
        PoolFault::OutOfMemory
    }
}

impl From<AllocError> for PoolFault {
    ghost from_gives = { λ _ e. e ≡ faults.OutOfMemory };

    fn from(_e: AllocError) -> PoolFault {
        PoolFault::OutOfMemory
    }
}

impl<T: Drop> From<AllocFailed<T>> for PoolFault {
    ghost from_gives = { λ _ e. e ≡ faults.OutOfMemory };

    fn from(_e: AllocFailed<T>) -> PoolFault {
        PoolFault::OutOfMemory
    }
}
