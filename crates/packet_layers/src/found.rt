//! One thing that a packet carries.
use crate::chunk_fault::ChunkFault;
use crate::data::Data;
use crate::fault::Fault;
use crate::transfer::Transfer;

/// One thing that a packet carries. Chunks are counted in their packet, from 1.
#[derive(Clone, Copy)]
pub enum Found<'a> {
    /// A whole DATA chunk.
    Chunk(usize, Data<'a>),
    /// A chunk that is not read.
    BadChunk(usize, ChunkFault),
    /// A message of MTP3.
    Transfer(Transfer<'a>),
    /// A message of SCCP, without point codes.
    Sccp(&'a [u8]),
    /// The packet is not read.
    Unread(Fault),
    /// A packet of another protocol, or a chunk of another type than DATA.
    Other,
}
