//! The parts of a message, and the faults of taking it apart and of putting it together.
ghost use Rattle.std.specs.Prelude.{◌≡◌};
ghost use Rattle.sccp_layout.specs.declared.parts.JoinFault.TheVariants as join_faults;
ghost use Rattle.sccp_layout.specs.declared.parts.SplitFault.TheVariants as split_faults;

use crate::param::Param;
use crate::part::Part;
use sccp_base::{List, OutOfMemory};
use std::alloc::{AllocError, AllocFailed};
use thiserror::Error;

/// The parts of a message (Q.713 section 1). The fixed part and the variable ones are lent from the message, and the
/// optional parameters are copies.
#[derive(Drop)]
pub struct Parts<'a> {
    /// The type of the message.
    pub code: u8,
    /// The mandatory parameters of fixed length, one after the other.
    pub fixed: Part<'a>,
    /// The contents of the mandatory parameters of variable length, in the order of their pointers.
    pub variable: List<Part<'a>>,
    /// The optional parameters in the order of their list, repeats included.
    pub params: List<Param>,
}

/// Why a message is not taken apart: the first test that fails, in this order. Parts and pointers are counted from 0.
#[derive(Clone, Copy, Debug, Error)]
pub enum SplitFault {
    /// No type of message has the first octet as its code.
    #[error("unknown type")]
    UnknownType,
    /// There are fewer octets than type, fixed part and pointers have.
    #[error("short")]
    Short,
    /// A pointer names a place that is not after all pointers and inside the message, or the pointer of a variable part is 0.
    /// The pointer to the optional part has the number of variable parts as its number.
    #[error("bad pointer {0}")]
    BadPointer(u8),
    /// The length or the contents of a variable part do not end inside the message.
    #[error("bad part {0}")]
    BadPart(u8),
    /// An optional parameter, or the octet 00 after the last one, is not inside the message.
    #[error("bad optional")]
    BadOptional,
    /// Memory ran out.
    #[error("out of memory")]
    OutOfMemory,
}

impl From<OutOfMemory> for SplitFault {
    ghost from_gives = { λ _ e. e ≡ split_faults.OutOfMemory };

    fn from(_e: OutOfMemory) -> SplitFault {
        SplitFault::OutOfMemory
    }
}

impl From<AllocError> for SplitFault {
    ghost from_gives = { λ _ e. e ≡ split_faults.OutOfMemory };

    fn from(_e: AllocError) -> SplitFault {
        SplitFault::OutOfMemory
    }
}

impl<T: Drop> From<AllocFailed<T>> for SplitFault {
    ghost from_gives = { λ _ e. e ≡ split_faults.OutOfMemory };

    fn from(_e: AllocFailed<T>) -> SplitFault {
        SplitFault::OutOfMemory
    }
}

/// Why parts cannot be written as a message: the first of these. Parts and pointers are counted from 0.
#[derive(Clone, Copy, Debug, Error)]
pub enum JoinFault {
    /// A part is longer than its length can say. The optional parameters count as the part after the variable ones.
    #[error("too long {0}")]
    TooLong(u8),
    /// A pointer would have a value that does not fit its field.
    #[error("pointer too far {0}")]
    PointerTooFar(u8),
    /// Memory ran out.
    #[error("out of memory")]
    OutOfMemory,
}

impl From<AllocError> for JoinFault {
    ghost from_gives = { λ _ e. e ≡ join_faults.OutOfMemory };

    fn from(_e: AllocError) -> JoinFault {
        JoinFault::OutOfMemory
    }
}

impl<T: Drop> From<AllocFailed<T>> for JoinFault {
    ghost from_gives = { λ _ e. e ≡ join_faults.OutOfMemory };

    fn from(_e: AllocFailed<T>) -> JoinFault {
        JoinFault::OutOfMemory
    }
}
