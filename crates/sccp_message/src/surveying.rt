//! The fault of each cut of a message.
ghost use Rattle.std.specs.Prelude.{◌≡◌, IfOk};
ghost use Rattle.sccp_message.specs.Reading.{first_fault};
ghost use Rattle.sccp_message.specs.Survey.{surveyed, IsWholeAlone};
ghost use Rattle.sccp_message.specs.Written.{Canonical};

use crate::decoding::decode;
use crate::fault::DecodeFault;
use sccp_base::{List, OutOfMemory};
use std::alloc::Global;

// What keeps octets from being a message. `None` if they are one.
fn fault_of(alloc: Global, octets: &[u8]) -> Result<Option<DecodeFault>, OutOfMemory>
    ensures { IfOk result (λ fault. fault ≡ first_fault octets.now) }
{
    match decode(alloc, octets) {
        Ok(message) => {
            drop(message);
            Ok(None)
        }
        Err(DecodeFault::OutOfMemory) => Err(OutOfMemory),
        Err(fault) => Ok(Some(fault)),
    }
}

// The fault of each cut, from no octets to all of them.
fn faults(alloc: Global, octets: &[u8]) -> Result<List<Option<DecodeFault>>, OutOfMemory>
    ensures { IfOk result (λ faults. faults ≡ surveyed octets.now) }
{
    let mut faults = List::new(alloc);
    for n in 0..octets.len() + 1 {
        faults.push(fault_of(alloc, &octets[..n])?)?;
    }
    Ok(faults)
}

/// What keeps each cut of octets from being a message. Element n is the first fault of the first n octets, from none of
/// them to all, and `None` if those are a message.
///
/// Of octets that `encode` writes, only the whole is a message. Each cut is decoded anew, so the time grows with the
/// square of the length at most. It grows with the length only, if a cut costs no more than a longest address. This is
/// so for types without optional part or data, and for what `encode` writes without parameters. The reason is that a
/// part is copied only once all of it is there.
pub fn survey(alloc: Global, octets: &[u8]) -> Result<List<Option<DecodeFault>>, OutOfMemory>
    ensures exact { IfOk result (λ faults. faults ≡ surveyed octets.now) }
    ensures whole_alone { IfOk result (λ faults. Canonical octets.now → IsWholeAlone octets.now faults) }
{
    faults(alloc, octets)
}
