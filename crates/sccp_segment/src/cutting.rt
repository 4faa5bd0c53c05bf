//! Cutting the data of a message into segments.
ghost use Rattle.std.specs.Prelude.{◌≡◌, ◌≤◌, ◌<◌, ◌*◌, true, length, IfOk, All};
ghost use Rattle.sccp_segment.specs.Cutting.{Gives, piece, piece_count, pieces, segments, split_data_of};

use crate::segment::Segment;
use crate::split_data_fault::SplitDataFault;
use sccp_base::{List, Octets, OutOfMemory, Reference};
use std::alloc::Global;

// The piece with a number, counted from 0.
fn piece(alloc: Global, payload: &[u8], size: usize, i: usize) -> Result<Octets, OutOfMemory>
    requires { i * size ≤ length payload.now }
    ensures { IfOk result (λ octets. octets ≡ piece payload.now size i) }
{
    let rest = &payload[i * size..];
    Ok(Octets::from_vec(Vec::from_slice(alloc, &rest[..size.min(rest.len())])?))
}

// The segments of the pieces, `count` of them.
fn segments(
    alloc: Global,
    payload: &[u8],
    size: usize,
    count: u8,
    reference: Reference,
    in_sequence: bool,
) -> Result<List<Segment>, OutOfMemory>
    requires size { 0 < size }
    requires count { count ≡ piece_count payload.now size }
    requires most { count ≤ 16 }
    ensures list { IfOk result (λ list. list ≡ segments true in_sequence reference (pieces payload.now size)) }
    ensures few { IfOk result (λ list. All (λ s. s.remaining < 16) list) }
{
    let mut list = List::new(alloc);
    for i in 0..count {
        list.push(Segment {
            first: i == 0,
            in_sequence,
            remaining: count - 1 - i,
            reference,
            payload: piece(alloc, payload, size, usize::from(i))?,
        })?;
    }
    Ok(list)
}

/// Cuts data into segments (Q.714 section 4.1) of `size` octets each, the last one shorter if need be; no data is one
/// segment without octets. All have the reference and the wish for delivery in sequence. The first one says that it is the
/// first, and each says how many follow it.
///
/// `ZeroSize` if the size is 0, or else `TooMany` if there would be more than 16 segments.
pub fn split_data(
    alloc: Global,
    payload: &[u8],
    size: usize,
    reference: Reference,
    in_sequence: bool,
) -> Result<List<Segment>, SplitDataFault>
    ensures exact { Gives (λ list. list) result (split_data_of payload.now size reference in_sequence) }
    ensures few { IfOk result (λ list. All (λ s. s.remaining < 16) list) }
{
    if size == 0 {
        return Err(SplitDataFault::ZeroSize);
    }
    let count = payload.len().div_ceil(size).max(1);
    if count > 16 {
        return Err(SplitDataFault::TooMany);
    }
    Ok(segments(alloc, payload, size, count as u8, reference, in_sequence)?)
}
