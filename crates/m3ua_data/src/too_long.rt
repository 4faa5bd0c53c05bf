//! Why a DATA message is not written.
ghost use Rattle.std.specs.Prelude.{◌≡◌};
ghost use Rattle.m3ua_data.specs.declared.too_long.TooLong.TheVariants as faults;

use std::alloc::{AllocError, AllocFailed};
use thiserror::Error;

/// Why a DATA message is not written.
#[derive(Clone, Copy, Debug, Error)]
pub enum TooLong {
    /// The first parameter, counted from 0, with more than 65,531 octets.
    #[error("too long {0}")]
    Parameter(u16),
    #[error("out of memory")]
    OutOfMemory,
}

impl From<AllocError> for TooLong {
    ghost from_gives = { λ _ e. e ≡ faults.OutOfMemory };

    fn from(_e: AllocError) -> TooLong {
        TooLong::OutOfMemory
    }
}

impl<T: Drop> From<AllocFailed<T>> for TooLong {
    ghost from_gives = { λ _ e. e ≡ faults.OutOfMemory };

    fn from(_e: AllocFailed<T>) -> TooLong {
        TooLong::OutOfMemory
    }
}
