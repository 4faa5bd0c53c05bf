//! The test whether octets are what is written for their message.
ghost use Rattle.std.specs.Prelude.{◌≡◌, IsTrue, Ok, IfOk};
ghost use Rattle.sccp_message.specs.Reading.{reading};
ghost use Rattle.sccp_message.specs.Written.{Canonical};
ghost use Rattle.sccp_message.specs.Encoding.{encoding, is_written, canonical as canonical_octets};

use crate::decoding::decode;
use crate::encode_fault::EncodeFault;
use crate::encoding::encode;
use crate::fault::DecodeFault;
use crate::message::Message;
use sccp_base::OutOfMemory;
use std::alloc::Global;

// Whether octets are what is written for a message.
fn is_written_of(alloc: Global, message: &Message, octets: &[u8]) -> Result<bool, OutOfMemory>
    ensures { IfOk result (λ is. is ≡ is_written octets.now (encoding message.now)) }
{
    match encode(alloc, message) {
        Ok(written) => Ok(written.as_slice() == octets),
        Err(EncodeFault::OutOfMemory) => Err(OutOfMemory),
        Err(_) => Ok(false),
    }
}

/// Whether octets are what `encode` writes for the message that they decode as.
pub fn canonical_as(alloc: Global, message: &Message, octets: &[u8]) -> Result<bool, OutOfMemory>
    requires { reading octets.now ≡ Ok message.now }
    ensures { IfOk result (λ is. is ≡ canonical_octets octets.now) }
{
    is_written_of(alloc, message, octets)
}

// Whether octets decode, and are what is written for their message.
fn is_canonical(alloc: Global, octets: &[u8]) -> Result<bool, OutOfMemory>
    ensures { IfOk result (λ is. is ≡ canonical_octets octets.now) }
{
    match decode(alloc, octets) {
        Ok(message) => {
            let canonical = canonical_as(alloc, &message, octets);
            drop(message);
            canonical
        }
        Err(DecodeFault::OutOfMemory) => Err(OutOfMemory),
        Err(_) => Ok(false),
    }
}

/// Whether octets are a message, and are what `encode` writes for it.
pub fn canonical(alloc: Global, octets: &[u8]) -> Result<bool, OutOfMemory>
    ensures yes { IfOk result (λ is. IsTrue is → Canonical octets.now) }
    ensures no { IfOk result (λ is. Canonical octets.now → IsTrue is) }
    ensures exact { IfOk result (λ is. is ≡ canonical_octets octets.now) }
{
    is_canonical(alloc, octets)
}
