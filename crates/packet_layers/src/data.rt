//! A DATA chunk of SCTP.
use crate::flow::Flow;

/// A DATA chunk (RFC 9260, section 3.3.1): the association and direction, the transmission sequence number, the stream
/// identifier, the stream sequence number and the payload protocol identifier (3 is M3UA), all as numbers. Then the three
/// flags, and the user data without padding: at least one octet.
#[derive(Clone, Copy)]
pub struct Data<'a> {
    pub flow: Flow,
    pub tsn: u32,
    pub stream: u16,
    pub sequence: u16,
    pub protocol: u32,
    /// The U bit: the stream sequence number does not count.
    pub unordered: bool,
    /// The B bit: the first fragment of a user message.
    pub begins: bool,
    /// The E bit: the last fragment of a user message.
    pub ends: bool,
    pub payload: &'a [u8],
}
