//! The causes for which an end's offer is refused.
ghost use Rattle.std.specs.Prelude.{◌≡◌};
ghost use Rattle.couple_chain.specs.declared.offer_fault.OfferFault.TheVariants as faults;

use sccp_base::OutOfMemory;
use thiserror::Error;

/// Why an offer is refused, in the order of testing.
#[derive(Clone, Copy, Debug, Error)]
pub enum OfferFault {
    /// The point that offers the message is a relay's.
    #[error("the message comes from a relay")]
    NotAnEnd,
    /// The point that the message goes to is not a relay's.
    #[error("the message goes to an end")]
    NotANode,
    /// The message is not connection-oriented.
    #[error("the message is connectionless")]
    Connectionless,
    /// A CR or CC whose source local reference was in an earlier accepted CR or CC from this point.
    #[error("the source local reference was used before")]
    UsedReference,
    /// The message does not fit its lengths and pointers, or its octets would not read.
    #[error("the message can't be written")]
    NotWritable,
    /// There is not enough memory to keep the message.
    #[error("out of memory")]
    OutOfMemory,
}

impl From<OutOfMemory> for OfferFault {
    ghost from_gives = { λ _ e. e ≡ faults.OutOfMemory };

    fn from(_e: OutOfMemory) -> OfferFault {
        OfferFault::OutOfMemory
    }
}
