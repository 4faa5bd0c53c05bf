//! What a pool keeps of one message.
use crate::key::Key;
use sccp_base::Octets;

/// What has arrived of one message that is under way.
#[derive(Drop)]
pub struct Run {
    pub key: Key,
    // The number of segments that follow the last one that arrived.
    pub remaining: u8,
    pub payload: Octets,
}
