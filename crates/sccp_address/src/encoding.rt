//! Writing an address as octets (Q.713 section 3.4).
ghost use Rattle.std.specs.Prelude.{◌≡◌, ◌<◌, ◌≤◌, ◌+◌, ◌*◌, ◌++◌, length, slice_index, IfOk, OnOk};
ghost use Rattle.std.specs.List.{All};
ghost use Rattle.std.specs.Option.{option_to_list};
ghost use Rattle.sccp_base.specs.Bcd.{packed};
ghost use Rattle.sccp_address.specs.Addresses.{AddressIs};
ghost use Rattle.sccp_address.specs.Written.{flag, point_code_octets, heading, title_octets, title_kind, indicator_of, written, IsAddress};

use crate::address::{Address, Title};
use sccp_base::{Octets, OutOfMemory, PointCode, Selector};
use std::alloc::{AllocError, Global};

// A flag as a bit.
fn flag_of(set: bool) -> u8
    ensures value { result ≡ flag set }
    ensures most { result ≤ 1 }
{
    if set { 1 } else { 0 }
}

// The indicator's number for the title, in its bits 3 to 6.
fn kind_of(title: &Title) -> u8
    ensures { result ≡ title_kind title.now }
{
    match title {
        Title::Absent => 0,
        Title::Global { selector, .. } => selector.kind(),
        Title::Raw { kind, .. } => *kind,
    }
}

// The address indicator (Q.713 section 3.4.1).
fn indicator(address: &Address) -> u8
    ensures { result ≡ indicator_of address.now }
{
    flag_of(address.pc.is_some())
        + 2 * flag_of(address.ssn.is_some())
        + 4 * (kind_of(&address.title) % 16)
        + 64 * flag_of(address.by_ssn)
        + 128 * flag_of(address.national)
}

// Adds the octets of a point code, the low one first.
fn push_point_code(octets: &mut Vec<u8>, pc: Option<PointCode>) -> Result<(), AllocError>
    ensures { OnOk result (octets.new.items ≡ octets.old.items ++ point_code_octets pc) }
{
    match pc {
        Some(pc) => {
            let value = pc.value();
            octets.extend_from_slice(&[(value % 256) as u8, (value / 256) as u8])
        }
        None => Ok(()),
    }
}

// Adds the octet of a subsystem number.
fn push_ssn(octets: &mut Vec<u8>, ssn: Option<u8>) -> Result<(), AllocError>
    ensures { OnOk result (octets.new.items ≡ octets.old.items ++ option_to_list ssn) }
{
    match ssn {
        Some(ssn) => octets.push(ssn)?,
        None => {}
    }
    Ok(())
}

// Adds the octets of a title before its digits, by the kind of the title.
fn push_heading(octets: &mut Vec<u8>, selector: &Selector, odd: bool) -> Result<(), AllocError>
    ensures { OnOk result (octets.new.items ≡ octets.old.items ++ heading selector.now odd) }
{
    let translation = selector.translation();
    let plan = 16 * selector.plan() + if odd { 1 } else { 2 };
    match selector.kind() {
        1 => octets.push(selector.nature() + 128 * flag_of(odd))?,
        2 => octets.push(translation)?,
        3 => octets.extend_from_slice(&[translation, plan])?,
        _ => octets.extend_from_slice(&[translation, plan, selector.nature()])?,
    }
    Ok(())
}

// The octet of the i-th pair of digits, the first digit in the low half. If the pair has one only, the high half is 0.
fn octet_at(digits: &[u8], i: usize) -> u8
    requires halves { All (λ d. d < 16) digits.now }
    requires inside { 2 * i < length digits.now }
    ensures { result ≡ slice_index digits.now (2 * i) + 16 * slice_index digits.now (2 * i + 1) }
{
    let low = digits[2 * i];
    match digits.get(2 * i + 1) {
        Some(high) => low + 16 * *high,
        None => low,
    }
}

// Adds the octets of the digits.
fn push_digits(octets: &mut Vec<u8>, digits: &[u8]) -> Result<(), AllocError>
    requires { All (λ d. d < 16) digits.now }
    ensures { OnOk result (octets.new.items ≡ octets.old.items ++ packed digits.now) }
{
    for i in 0..digits.len().div_ceil(2) {
        octets.push(octet_at(digits, i))?;
    }
    Ok(())
}

// Adds the octets of a title.
fn push_title(octets: &mut Vec<u8>, title: &Title) -> Result<(), AllocError>
    ensures { OnOk result (octets.new.items ≡ octets.old.items ++ title_octets title.now) }
{
    match title {
        Title::Absent => {}
        Title::Global { selector, digits } => {
            push_heading(octets, selector, digits.len() % 2 == 1)?;
            push_digits(octets, digits.as_slice())?;
        }
        Title::Raw { octets: kept, .. } => octets.extend_from_slice(kept.as_slice())?,
    }
    Ok(())
}

// Room for each address but one whose title is kept as its octets.
const MOST: usize = 1 + 2 + 1 + 3 + 16;

/// Writes an address as octets (Q.713 section 3.4). Spare bits and the filler are 0. The encoding scheme of a title with
/// digits is 1 for an odd number of them and 2 for an even one. A title kept as its octets is written as it was read.
pub fn write(alloc: Global, address: &Address) -> Result<Octets, OutOfMemory>
    ensures exact { IfOk result (λ octets. octets ≡ written address.now) }
    ensures again { IsAddress address.now → IfOk result (λ octets. AddressIs octets address.now) }
{
    let mut octets = Vec::with_capacity(alloc, MOST)?;
    octets.push(indicator(address))?;
    push_point_code(&mut octets, address.pc)?;
    push_ssn(&mut octets, address.ssn)?;
    push_title(&mut octets, &address.title)?;
    Ok(Octets::from_vec(octets))
}
