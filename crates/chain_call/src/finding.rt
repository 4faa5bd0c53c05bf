//! What is looked up among the messages that ends were handed.
ghost use Rattle.std.specs.Prelude.{◌≡◌, ◌++◌, IfOk, OnOk};
ghost use Rattle.chain_call.specs.Notes.{request_in, first_request, confirm_of, confirm_at, first_confirm, refusal_of, refusal_at};
ghost use Rattle.chain_call.specs.Notes.{first_refusal, data_of, data_in, data_at};

use crate::handed::Handed;
use crate::note::Note;
use sccp_base::{Octets, OutOfMemory, PointCode, Reference};
use std::alloc::Global;

/// A request that an end was handed.
#[derive(Clone, Copy)]
pub struct Requested {
    /// The point of the relay from which the end was handed it.
    pub from: PointCode,
    /// The end's point.
    pub to: PointCode,
    /// The source local reference of the request.
    pub slr: Reference,
}

/// The request that an end was handed, if this is one.
fn request_in(h: &Handed) -> Option<Requested>
    ensures { result ≡ request_in h.now }
{
    match &h.note {
        Note::Request(slr) => Some(Requested {
            from: h.from,
            to: h.to,
            slr: *slr,
        }),
        _ => None,
    }
}

/// The first request that an end was handed.
pub(crate) fn first_request(handed: &[Handed]) -> Option<Requested>
    ensures { result ≡ first_request handed.now }
{
    for h in handed {
        if let Some(request) = request_in(h) {
            return Some(request);
        }
    }
    None
}

/// The source reference of a confirmation.
fn confirm_of(note: &Note) -> Option<Reference>
    ensures { result ≡ confirm_of note.now }
{
    match note {
        Note::Confirm(slr) => Some(*slr),
        _ => None,
    }
}

/// The source reference of a confirmation, if the end at this point was handed it.
fn confirm_at(point: PointCode, h: &Handed) -> Option<Reference>
    ensures { result ≡ confirm_at point h.now }
{
    if h.to == point {
        confirm_of(&h.note)
    } else {
        None
    }
}

/// The source reference of the first confirmation that the end at a point was handed.
pub(crate) fn first_confirm(point: PointCode, handed: &[Handed]) -> Option<Reference>
    ensures { result ≡ first_confirm point handed.now }
{
    for h in handed {
        if let Some(own) = confirm_at(point, h) {
            return Some(own);
        }
    }
    None
}

/// The cause of a refusal.
fn refusal_of(note: &Note) -> Option<u8>
    ensures { result ≡ refusal_of note.now }
{
    match note {
        Note::Refusal(cause) => Some(*cause),
        _ => None,
    }
}

/// The cause of a refusal, if the end at this point was handed it.
fn refusal_at(point: PointCode, h: &Handed) -> Option<u8>
    ensures { result ≡ refusal_at point h.now }
{
    if h.to == point {
        refusal_of(&h.note)
    } else {
        None
    }
}

/// The cause of the first refusal that the end at a point was handed.
pub(crate) fn first_refusal(point: PointCode, handed: &[Handed]) -> Option<u8>
    ensures { result ≡ first_refusal point handed.now }
{
    for h in handed {
        if let Some(cause) = refusal_at(point, h) {
            return Some(cause);
        }
    }
    None
}

/// The data of a message with this destination reference; otherwise none.
fn data_of(reference: Reference, note: &Note) -> &[u8]
    ensures { result.now ≡ data_of reference note.now }
{
    match note {
        Note::Data { dlr, payload } => {
            if *dlr == reference {
                payload.as_slice()
            } else {
                &[]
            }
        }
        _ => &[],
    }
}

/// The data of a message with this destination reference, if the end at this point was handed it.
fn data_in(point: PointCode, reference: Reference, h: &Handed) -> &[u8]
    ensures { result.now ≡ data_in point reference h.now }
{
    if h.to == point {
        data_of(reference, &h.note)
    } else {
        &[]
    }
}

/// The data that the end at a point was handed with a destination reference, in order.
pub(crate) fn data_at(
    alloc: Global,
    point: PointCode,
    reference: Reference,
    handed: &[Handed],
) -> Result<Octets, OutOfMemory>
    ensures { IfOk result (λ octets. octets ≡ data_at point reference handed.now) }
{
    let mut octets = Vec::new(alloc);
    for h in handed {
        octets.extend_from_slice(data_in(point, reference, h))?;
    }
    Ok(Octets::from_vec(octets))
}
