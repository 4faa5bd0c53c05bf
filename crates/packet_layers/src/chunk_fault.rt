//! Why a chunk is not read.

/// Why a chunk of an SCTP packet is not read.
#[derive(Clone, Copy)]
pub enum ChunkFault {
    /// The captured octets end within it. No chunk after it is read.
    Short,
    /// Its length is below 4, and no chunk after it is read; or it is a DATA chunk without user data.
    Bad,
    /// It is an I-DATA chunk (RFC 8260).
    Interleaved,
}
