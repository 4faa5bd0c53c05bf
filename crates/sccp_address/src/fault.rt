//! Why octets are not an address.
ghost use Rattle.std.specs.Prelude.{◌≡◌};
ghost use Rattle.sccp_address.specs.declared.fault.AddressFault.TheVariants as faults;

use sccp_base::OutOfMemory;
use std::alloc::AllocError;
use thiserror::Error;

/// Why octets are not an address: the first fault from left to right.
#[derive(Clone, Copy, Debug, Error)]
pub enum AddressFault {
    /// There is no octet, so no indicator (Q.713 section 3.4.1).
    #[error("empty")]
    Empty,
    /// A field that the indicator announces is missing, or an octet before the digits of a title.
    #[error("short")]
    Short,
    /// The indicator announces no title, and octets are left.
    #[error("extra")]
    Extra,
    /// The number of digits is said to be odd, and there is no octet of digits.
    #[error("odd without digits")]
    OddWithoutDigits,
    /// Memory ran out.
    #[error("out of memory")]
    OutOfMemory,
}

impl From<AllocError> for AddressFault {
    ghost from_gives = { λ _ e. e ≡ faults.OutOfMemory };

    fn from(_e: AllocError) -> AddressFault {
        AddressFault::OutOfMemory
    }
}

impl From<OutOfMemory> for AddressFault {
    ghost from_gives = { λ _ e. e ≡ faults.OutOfMemory };

    fn from(_e: OutOfMemory) -> AddressFault {
        AddressFault::OutOfMemory
    }
}
