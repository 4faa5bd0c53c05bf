//! Reading a DATA message (RFC 4666 sections 1.3, 3.1 to 3.3.1).
ghost use Rattle.std.specs.Prelude.{◌≡◌, ◌≤◌, ◌<◌, ◌^◌, length, List, Ok, ◌+◌, IfOk, IfErr, IfSome, ◌⊎◌, Some};
ghost use Rattle.sccp_base.specs.Answers.{unless};
ghost use Rattle.m3ua_data.specs.DataIs.{DataIs};
ghost use Rattle.m3ua_data.specs.Fields.{field_fault};
ghost use Rattle.m3ua_data.specs.Reading.{Gives, is_header, is_length, param_in, params_from, reading, first_fault};
ghost use Rattle.m3ua_data.specs.Parts.{tagged_at};
ghost use Rattle.m3ua_data.specs.declared.tagged.Tagged.{Tagged};

use crate::data::Data;
use crate::fault::DataFault;
use crate::fields::field_fault;
use crate::numbers::{number_2, number_4, up_to_four};
use crate::tagged::Tagged;
use sccp_base::{List as Params, Octets};
use std::alloc::Global;

/// A parameter as a message has it: its tag and its contents, without padding.
#[derive(Clone, Copy)]
pub struct Standing<'a> {
    pub tag: u16,
    pub octets: &'a [u8],
}

// Version, class and type.
fn is_header(octets: &[u8]) -> bool
    requires { 8 ≤ length octets.now }
    ensures { result ≡ is_header octets.now }
{
    octets[0] == 1 && octets[2] == 1 && octets[3] == 1
}

// Whether the length that a message says fits the number of its octets.
fn is_length(end: usize, size: usize) -> bool
    requires { end < 2 ^ 32 }
    ensures { result ≡ is_length end size }
{
    end >= 8 && (size == end || size == up_to_four(end))
}

// The parameter at the front, if all of it is within this number of octets.
fn param_in(octets: &[u8], room: usize) -> Option<Standing<'_>>
    requires { room ≤ length octets.now }
    ensures param { tagged_at result ≡ param_in room octets.now }
    ensures inside { IfSome result (λ s. 4 + length s.octets.now ≤ room) }
{
    if room < 4 {
        return None;
    }
    let own = usize::from(number_2(octets, 2));
    if own < 4 || own > room {
        return None;
    }
    Some(Standing {
        tag: number_2(octets, 0),
        octets: &octets[4..own],
    })
}

// The parameters up to the end, each copied once.
fn params_of(alloc: Global, octets: &[u8], end: usize) -> Result<Params<Tagged>, DataFault>
    requires inside { end ≤ length octets.now }
    requires number { end < 2 ^ 32 }
    ensures exact { Gives (λ params. params) result (params_from 1024 0 octets.now end 8) }
    ensures few { IfOk result (λ params. length params ≤ 1024) }
{
    let mut params = Params::new(alloc);
    let mut place = 8;
    for i in 0..1024 {
        if place >= end {
            return Ok(params);
        }
        let Some(param) = param_in(&octets[place..], end - place) else {
            return Err(DataFault::BadParameter(i));
        };
        let copy = Octets::from_vec(Vec::from_slice(alloc, param.octets)?);
        params.push(Tagged {
            tag: param.tag,
            octets: copy,
        })?;
        place = up_to_four(place + (4 + param.octets.len()));
    }
    if place >= end {
        Ok(params)
    } else {
        Err(DataFault::BadParameter(1024))
    }
}

// The message of parameters that were read, if their contents are sound.
fn sound(params: Params<Tagged>) -> Result<Data, DataFault>
    requires { length params ≤ 1024 }
    ensures { Gives (λ value. value) result (unless (field_fault params) (Ok params)) }
{
    match field_fault(params.as_slice()) {
        Some(fault) => Err(fault),
        None => Ok(Data::new(params).unwrap()),
    }
}

// The message, by the one definition of what reading gives. `decode` says the same by how the octets are put together.
#[tactic(auto, unfolding(crate::specs::Reading::reading))]
fn whole(alloc: Global, octets: &[u8]) -> Result<Data, DataFault>
    ensures { Gives (λ value. value) result (reading octets.now) }
{
    if octets.len() < 8 {
        return Err(DataFault::Short);
    }
    if !is_header(octets) {
        return Err(DataFault::BadHeader);
    }
    let end = number_4(octets, 4) as usize;
    if !is_length(end, octets.len()) {
        return Err(DataFault::BadLength);
    }
    let params = params_of(alloc, octets, end)?;
    sound(params)
}

/// The parameters of a DATA message (RFC 4666, section 3.3.1), or the first fault in the order of `DataFault`.
///
/// Parameters may be in any order, other tags are kept, and of a tag the first counts. Reserved and padding octets may have
/// any value. The length may leave out the last parameter's padding, and the message may then end with it or without it.
pub fn decode(alloc: Global, octets: &[u8]) -> Result<Data, DataFault>
    ensures found { IfOk result (λ value. DataIs octets.now value) }
    ensures only { (params : List Tagged) → DataIs octets.now params → Gives (λ value. value) result (Ok params) }
    ensures refused { IfErr result (λ e. e ≡ DataFault.OutOfMemory ⊎ first_fault octets.now ≡ Some e) }
    ensures exact { Gives (λ value. value) result (reading octets.now) }
{
    whole(alloc, octets)
}
