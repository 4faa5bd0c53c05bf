//! The faults of sending a message on in segments.
ghost use Rattle.std.specs.Prelude.{◌≡◌};
ghost use Rattle.long_segments.specs.declared.long_fault.LongFault.TheVariants as faults;

use sccp_base::OutOfMemory;
use sccp_message::EncodeFault;
use std::alloc::{AllocError, AllocFailed};

/// Why a message is not sent on in segments: the first of these that holds.
#[derive(Clone, Copy, Debug)]
pub enum LongFault {
    /// The octets do not read as an LUDT.
    NotLong,
    /// It is one of several segments: its segmentation parameter is not that of a first segment which no other follows.
    AlreadySegment,
    /// Segments of 0 octets.
    ZeroSize,
    /// More than 16 segments.
    TooMany,
    /// The first segment cannot be written, by this fault, which is never want of memory. The others have no more data, so
    /// if the first can be written they can.
    NotWritable(EncodeFault),
    /// There was no memory.
    OutOfMemory,
}

impl From<OutOfMemory> for LongFault {
    ghost from_gives = { λ _ e. e ≡ faults.OutOfMemory };

    fn from(_e: OutOfMemory) -> LongFault {
        LongFault::OutOfMemory
    }
}

impl From<AllocError> for LongFault {
    ghost from_gives = { λ _ e. e ≡ faults.OutOfMemory };

    fn from(_e: AllocError) -> LongFault {
        LongFault::OutOfMemory
    }
}

impl<T: Drop> From<AllocFailed<T>> for LongFault {
    ghost from_gives = { λ _ e. e ≡ faults.OutOfMemory };

    fn from(_e: AllocFailed<T>) -> LongFault {
        LongFault::OutOfMemory
    }
}
