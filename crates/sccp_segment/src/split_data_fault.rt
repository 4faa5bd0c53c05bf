//! The faults of cutting.
ghost use Rattle.std.specs.Prelude.{◌≡◌};
ghost use Rattle.sccp_segment.specs.declared.split_data_fault.SplitDataFault.TheVariants as faults;

use sccp_base::OutOfMemory;
use std::alloc::{AllocError, AllocFailed};

/// Why data is not cut into segments: the first of these that holds.
#[derive(Clone, Copy, Debug)]
pub enum SplitDataFault {
    /// Segments of 0 octets.
    ZeroSize,
    /// More than 16 segments, the most that a remaining number of four bits can count.
    TooMany,
    /// There was no memory for the segments.
    OutOfMemory,
}

impl From<OutOfMemory> for SplitDataFault {
    ghost from_gives = { λ _ e. e ≡ faults.OutOfMemory };

    fn from(_e: OutOfMemory) -> SplitDataFault {
        SplitDataFault::OutOfMemory
    }
}

impl From<AllocError> for SplitDataFault {
    ghost from_gives = { λ _ e. e ≡ faults.OutOfMemory };

    fn from(_e: AllocError) -> SplitDataFault {
        SplitDataFault::OutOfMemory
    }
}

impl<T: Drop> From<AllocFailed<T>> for SplitDataFault {
    ghost from_gives = { λ _ e. e ≡ faults.OutOfMemory };

    fn from(_e: AllocFailed<T>) -> SplitDataFault {
        SplitDataFault::OutOfMemory
    }
}
