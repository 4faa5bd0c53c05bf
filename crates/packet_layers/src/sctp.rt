//! SCTP packets (RFC 9260, section 3).
ghost use Rattle.std.specs.Prelude.{◌≡◌, ◌≤◌, ◌<◌, ◌^◌, length, map, IfOk, IfErr};
ghost use Rattle.packet_layers.specs.Values.{data_as, found_as};
ghost use Rattle.packet_layers.specs.Layers.{chunk_of, chunk_size, chunks_from, data_of, flow_of, sctp};

use crate::chunk_fault::ChunkFault;
use crate::data::Data;
use crate::fault::Fault;
use crate::flow::Flow;
use crate::found::Found;
use crate::layer::Layer;
use crate::numbers::{after, number_2, number_4, up_to_four};
use crate::single::single;
use sccp_base::{List, OutOfMemory};
use std::alloc::Global;

// The type of a DATA chunk.
const DATA: u8 = 0;

// The type of an I-DATA chunk (RFC 8260, section 2.1).
const I_DATA: u8 = 64;

// Ports and verification tag of the common header.
fn flow_of(octets: &[u8]) -> Flow
    requires { 12 ≤ length octets.now }
    ensures { result ≡ flow_of octets.now }
{
    Flow {
        source: number_2(octets, 0),
        destination: number_2(octets, 2),
        tag: number_4(octets, 4),
    }
}

// A DATA chunk without padding.
fn data_of<'a>(flow: Flow, octets: &'a [u8]) -> Data<'a>
    requires { 17 ≤ length octets.now }
    ensures { data_as result ≡ data_of flow octets.now }
{
    let flags = octets[1];
    Data {
        flow,
        tsn: number_4(octets, 4),
        stream: number_2(octets, 8),
        sequence: number_2(octets, 10),
        protocol: number_4(octets, 12),
        unordered: flags / 4 % 2 == 1,
        begins: flags / 2 % 2 == 1,
        ends: flags % 2 == 1,
        payload: &octets[16..],
    }
}

// A whole chunk without padding.
#[tactic(auto, unfolding(crate::specs::Layers::chunk_of))]
fn chunk_of<'a>(number: usize, flow: Flow, octets: &'a [u8]) -> Found<'a>
    requires { 4 ≤ length octets.now }
    ensures { found_as result ≡ chunk_of number flow octets.now }
{
    if octets[0] == I_DATA {
        return Found::BadChunk(number, ChunkFault::Interleaved);
    }
    if octets[0] != DATA {
        return Found::Other;
    }
    if octets.len() < 17 {
        return Found::BadChunk(number, ChunkFault::Bad);
    }
    Found::Chunk(number, data_of(flow, octets))
}

// The length of the first chunk, if it is possible and all of the chunk was captured.
#[tactic(auto, unfolding(crate::specs::Layers::chunk_size))]
fn chunk_size(octets: &[u8]) -> Result<usize, ChunkFault>
    ensures exact { result ≡ chunk_size octets.now }
    ensures least { IfOk result (λ size. 4 ≤ size) }
    ensures inside { IfOk result (λ size. size ≤ length octets.now) }
    ensures number { IfOk result (λ size. size < 2 ^ 16) }
{
    if octets.len() < 4 {
        return Err(ChunkFault::Short);
    }
    let size = usize::from(number_2(octets, 2));
    if size < 4 {
        return Err(ChunkFault::Bad);
    }
    if octets.len() < size {
        return Err(ChunkFault::Short);
    }
    Ok(size)
}

// The chunks of a packet that had this number of octets after its common header.
fn chunks<'a>(
    alloc: Global,
    most: usize,
    flow: Flow,
    whole: usize,
    octets: &'a [u8],
) -> Result<List<Found<'a>>, OutOfMemory>
    ensures { IfOk result (λ list. map found_as list ≡ chunks_from most 1 flow whole octets.now) }
{
    let mut list = List::new(alloc);
    let mut whole = whole;
    let mut left = octets;
    for i in 0..most {
        if whole == 0 {
            return Ok(list);
        }
        let size = match chunk_size(left) {
            Ok(size) => size,
            Err(fault) => {
                list.push(Found::BadChunk(i + 1, fault))?;
                return Ok(list);
            }
        };
        list.push(chunk_of(i + 1, flow, &left[..size]))?;
        let used = up_to_four(size);
        whole = whole.saturating_sub(used);
        left = after(left, used);
    }
    Ok(list)
}

/// A packet that had this number of octets.
#[tactic(auto, unfolding(crate::specs::Layers::sctp))]
pub fn sctp<'a>(
    alloc: Global,
    whole: usize,
    octets: &'a [u8],
) -> Result<List<Found<'a>>, OutOfMemory>
    ensures { IfOk result (λ list. map found_as list ≡ sctp whole octets.now) }
{
    if octets.len() < 12 {
        return single(alloc, Found::Unread(Fault::Short(Layer::Sctp)));
    }
    chunks(
        alloc,
        octets.len(),
        flow_of(octets),
        whole.saturating_sub(12),
        &octets[12..],
    )
}
