//! Writing a DATA message (RFC 4666 sections 3.1 to 3.3.1).
ghost use Rattle.std.specs.Prelude.{◌≡◌, ◌≤◌, ◌<◌, ◌^◌, ◌+◌, ◌++◌, length, replicate, Some, None, Ok, OnOk, IfOk};
ghost use Rattle.std.specs.List.{AllByRecursion};
ghost use Rattle.std.specs.Int.{w16, to_be_bytes};
ghost use Rattle.m3ua_data.specs.DataIs.{DataIs, IsSound, own_length};
ghost use Rattle.m3ua_data.specs.Written.{Gives, body, padded, first_long, written, writing};

use crate::data::Data;
use crate::numbers::up_to_four;
use crate::tagged::Tagged;
use crate::too_long::TooLong;
use sccp_base::Octets;
use std::alloc::{AllocError, Global};

// A parameter is followed by at most three octets of padding.
const PADDING: [u8; 3] = [0; 3];

// The first parameter with more octets than its length can say.
fn long_parameter(params: &[Tagged]) -> Option<u16>
    requires { length params.now ≤ 1024 }
    ensures { result ≡ first_long 0 params.now }
{
    for (i, param) in params.iter().enumerate() {
        if param.octets.as_slice().len() > 65531 {
            return Some(i as u16);
        }
    }
    None
}

// How many octets the parameters take with their padding.
fn size_of(params: &[Tagged]) -> u32
    requires few { length params.now ≤ 1024 }
    requires short { first_long 0 params.now ≡ None }
    ensures sum { result ≡ length (body params.now) }
    ensures few { result ≤ 67108864 }
{
    let mut size = 0;
    for param in params {
        size += up_to_four(4 + param.octets.as_slice().len()) as u32;
    }
    size
}

// Puts the tag and the length of a parameter at the end.
fn push_heading(octets: &mut Vec<u8>, tag: u16, own: u16) -> Result<(), AllocError>
    ensures { OnOk result (octets.new.items ≡ octets.old.items ++ (to_be_bytes w16 tag ++ to_be_bytes w16 own)) }
{
    octets.extend_from_slice(&tag.to_be_bytes())?;
    octets.extend_from_slice(&own.to_be_bytes())?;
    Ok(())
}

// Puts padding at the end.
fn push_padding(octets: &mut Vec<u8>, count: usize) -> Result<(), AllocError>
    requires { count ≤ 3 }
    ensures { OnOk result (octets.new.items ≡ octets.old.items ++ replicate count 0) }
{
    octets.extend_from_slice(&PADDING[..count])?;
    Ok(())
}

// Puts a parameter with its padding at the end.
fn push_param(octets: &mut Vec<u8>, param: &Tagged) -> Result<(), AllocError>
    requires { own_length param.now ≤ 65535 }
    ensures written { OnOk result (octets.new.items ≡ octets.old.items ++ padded param.now) }
    ensures tag { OnOk result (param.now.tag < 2 ^ 16) }
{
    let contents = param.octets.as_slice();
    let own = 4 + contents.len();
    push_heading(octets, param.tag, own as u16)?;
    octets.extend_from_slice(contents)?;
    push_padding(octets, up_to_four(own) - own)?;
    Ok(())
}

// Puts the parameters at the end.
fn push_params(octets: &mut Vec<u8>, params: &[Tagged]) -> Result<(), AllocError>
    requires { first_long 0 params.now ≡ None }
    ensures written { OnOk result (octets.new.items ≡ octets.old.items ++ body params.now) }
    ensures tags { OnOk result (AllByRecursion (λ p. p.tag < 2 ^ 16) params.now) }
{
    for param in params {
        push_param(octets, param)?;
    }
    Ok(())
}

// The octets of parameters of which none is too long.
fn short_written(alloc: Global, params: &[Tagged]) -> Result<Octets, TooLong>
    requires few { length params.now ≤ 1024 }
    requires short { first_long 0 params.now ≡ None }
    ensures exact { Gives (λ octets. octets) result (Ok (written params.now)) }
    ensures tags { OnOk result (AllByRecursion (λ p. p.tag < 2 ^ 16) params.now) }
{
    let size = 8 + size_of(params);
    let mut octets = Vec::with_capacity(alloc, size as usize)?;
    octets.extend_from_slice(&[1, 0, 1, 1])?;
    octets.extend_from_slice(&size.to_be_bytes())?;
    push_params(&mut octets, params)?;
    Ok(Octets::from_vec(octets))
}

/// The octets of a DATA message: reserved and padding octets are 0, and the length counts all padding. `TooLong::Parameter`
/// for the first parameter with more than 65,531 octets. What is written of a sound message is read as that message.
pub fn encode(alloc: Global, value: &Data) -> Result<Octets, TooLong>
    ensures exact { Gives (λ octets. octets) result (writing value.now) }
    ensures again { IfOk result (λ octets. IsSound value.now → DataIs octets value.now) }
{
    let params = value.params();
    match long_parameter(params) {
        Some(i) => Err(TooLong::Parameter(i)),
        None => short_written(alloc, params),
    }
}
