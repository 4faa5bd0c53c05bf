//! Fields of a message, read from its parts (Q.713 section 3).
ghost use Rattle.std.specs.Prelude.{◌≡◌, ◌≤◌, ◌<◌, ◌+◌, ◌-◌, length, slice_get, Some, IfOk};
ghost use Rattle.sccp_base.specs.Bits.{bit, bits};
ghost use Rattle.sccp_message.specs.Fields.{reference_at};
ghost use Rattle.sccp_message.specs.Reading.{Gives, address_in};

use crate::fault::DecodeFault;
use sccp_address::{Address, AddressFault};
use sccp_base::{List, Octets, OutOfMemory, Reference, Seven};
use sccp_layout::Part;
use std::alloc::Global;

/// A local reference of three octets, the lowest first (3.2, 3.3).
pub fn reference(octets: &[u8], place: usize) -> Reference
    requires { place + 3 ≤ length octets.now }
    ensures { result ≡ reference_at octets.now place }
{
    let low = u32::from(octets[place]);
    let middle = u32::from(octets[place + 1]);
    let high = u32::from(octets[place + 2]);
    Reference::new(low + 256 * middle + 65536 * high).unwrap()
}

/// A sequence number, in bits 2 to 8 of its octet (3.8, 3.9).
pub fn sequence(octet: u8) -> Seven
    ensures { result ≡ bits octet 2 8 }
{
    Seven::new(octet >> 1).unwrap()
}

/// Whether more data follow: bit 1, which is M (3.7, 3.9).
pub fn is_more(octet: u8) -> bool
    ensures { result ≡ bit octet 1 }
{
    octet & 1 == 1
}

/// The address in variable part i (3.4, 3.5). The fault names the part.
pub fn address(alloc: Global, variable: &List<Part<'_>>, i: u8) -> Result<Address, DecodeFault>
    requires { i + 1 ≤ length variable.now }
    ensures { Gives (λ a. a) result (address_in variable.now i) }
{
    let part = &variable.as_slice()[usize::from(i)];
    match sccp_address::read(alloc, part.as_slice()) {
        Ok(address) => Ok(address),
        Err(AddressFault::OutOfMemory) => Err(DecodeFault::OutOfMemory),
        Err(fault) => Err(DecodeFault::Address(i, fault)),
    }
}

/// The data, which are the last variable part (3.16, 3.20).
pub fn data(alloc: Global, variable: &List<Part<'_>>) -> Result<Octets, OutOfMemory>
    requires { 0 < length variable.now }
    ensures { IfOk result (λ octets. slice_get variable.now (length variable.now - 1) ≡ Some octets) }
{
    let parts = variable.as_slice();
    let last = &parts[parts.len() - 1];
    Ok(Octets::from_vec(Vec::from_slice(alloc, last.as_slice())?))
}
