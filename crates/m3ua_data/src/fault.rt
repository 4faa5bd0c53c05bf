//! Why octets are no DATA message.
ghost use Rattle.std.specs.Prelude.{◌≡◌};
ghost use Rattle.m3ua_data.specs.declared.fault.DataFault.TheVariants as faults;

use sccp_base::OutOfMemory;
use std::alloc::AllocError;
use thiserror::Error;

/// Why octets are no DATA message: the first test that fails, in this order. Parameters are counted from 0.
#[derive(Clone, Copy, Debug, Error)]
pub enum DataFault {
    /// There are fewer than 8 octets.
    #[error("short")]
    Short,
    /// Version, class or type is not 1.
    #[error("bad header")]
    BadHeader,
    /// The length is below 8, or the number of octets is neither the length nor the next multiple of four.
    #[error("bad length")]
    BadLength,
    /// The parameter does not end inside the length, or its own length is below 4, or it is the 1,025th.
    #[error("bad parameter {0}")]
    BadParameter(u16),
    /// No parameter is protocol data.
    #[error("no data")]
    NoData,
    /// The first parameter of a known tag has another number of octets than it should.
    #[error("bad field {0:04X}")]
    BadField(u16),
    #[error("out of memory")]
    OutOfMemory,
}

impl From<OutOfMemory> for DataFault {
    ghost from_gives = { λ _ e. e ≡ faults.OutOfMemory };

    fn from(_e: OutOfMemory) -> DataFault {
        DataFault::OutOfMemory
    }
}

impl From<AllocError> for DataFault {
    ghost from_gives = { λ _ e. e ≡ faults.OutOfMemory };

    fn from(_e: AllocError) -> DataFault {
        DataFault::OutOfMemory
    }
}
