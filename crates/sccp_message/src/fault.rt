//! Why octets are not a message.
ghost use Rattle.std.specs.Prelude.{◌≡◌};
ghost use Rattle.sccp_message.specs.declared.fault.DecodeFault.TheVariants as faults;

use sccp_address::AddressFault;
use sccp_base::OutOfMemory;
use sccp_layout::SplitFault;
use std::alloc::AllocError;
use thiserror::Error;

/// Why octets are not a message: the first test that fails, in this order. The fault inside is never want of memory.
#[derive(Clone, Copy, Debug, Error)]
pub enum DecodeFault {
    /// A fault of the type, the length, a pointer, a variable part or the optional part.
    #[error("{0}")]
    Split(SplitFault),
    /// The first variable part, counted from 0, that is to be an address and is not.
    #[error("address {0} {1}")]
    Address(u8, AddressFault),
    /// The name of the first parameter known to the type whose contents do not read.
    #[error("field {0:02X}")]
    Field(u8),
    /// Memory ran out.
    #[error("out of memory")]
    OutOfMemory,
}

impl From<OutOfMemory> for DecodeFault {
    ghost from_gives = { λ _ e. e ≡ faults.OutOfMemory };

    fn from(_e: OutOfMemory) -> DecodeFault {
        DecodeFault::OutOfMemory
    }
}

impl From<AllocError> for DecodeFault {
    ghost from_gives = { λ _ e. e ≡ faults.OutOfMemory };

    fn from(_e: AllocError) -> DecodeFault {
        DecodeFault::OutOfMemory
    }
}
