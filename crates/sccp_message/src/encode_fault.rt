//! Why a message cannot be written.
ghost use Rattle.std.specs.Prelude.{◌≡◌};
ghost use Rattle.sccp_message.specs.declared.encode_fault.EncodeFault.TheVariants as faults;

use sccp_base::OutOfMemory;
use thiserror::Error;

/// Why a message cannot be written. Variable parts and pointers are counted from 0, and the optional part follows them.
#[derive(Clone, Copy, Debug, PartialEq, Eq, Error)]
pub enum EncodeFault {
    /// A part or a parameter is longer than its length can say. A parameter counts as the optional part.
    #[error("too long {0}")]
    TooLong(u8),
    /// No part is too long, and this is the first pointer whose value does not fit.
    #[error("pointer too far {0}")]
    PointerTooFar(u8),
    /// Memory ran out.
    #[error("out of memory")]
    OutOfMemory,
}

impl From<OutOfMemory> for EncodeFault {
    ghost from_gives = { λ _ e. e ≡ faults.OutOfMemory };

    fn from(_e: OutOfMemory) -> EncodeFault {
        EncodeFault::OutOfMemory
    }
}
