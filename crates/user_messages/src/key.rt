//! What distinguishes the DATA chunks of a capture.
ghost use Rattle.std.specs.Prelude.{◌≡◌};
ghost use Rattle.packet_layers.specs.Values.{data_as};
ghost use Rattle.user_messages.specs.Chunks.{key_of, same_key};

use packet_layers::Data;

/// What distinguishes a DATA chunk: source port, destination port and verification tag of its association, and its
/// transmission sequence number (RFC 9260, sections 3.1 and 3.3.1). A chunk that is sent again has the same.
#[derive(Clone, Copy, PartialEq, Eq, Hash)]
pub struct Key {
    pub source: u16,
    pub destination: u16,
    pub tag: u32,
    pub tsn: u32,
}

/// The key of a chunk.
pub fn key_of(chunk: &Data<'_>) -> Key
    ensures { result ≡ key_of (data_as chunk.now) }
{
    Key {
        source: chunk.flow.source,
        destination: chunk.flow.destination,
        tag: chunk.flow.tag,
        tsn: chunk.tsn,
    }
}

/// Whether two keys are the same.
pub fn same_key(a: Key, b: Key) -> bool
    ensures { result ≡ same_key a b }
{
    a.source == b.source && a.destination == b.destination && a.tag == b.tag && a.tsn == b.tsn
}
