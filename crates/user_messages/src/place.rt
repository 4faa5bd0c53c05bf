//! The place of a chunk in a capture.

/// The place of a chunk in a capture: the number of its packet, and its number in this packet, both counted from 1.
#[derive(Clone, Copy)]
pub struct Place {
    pub packet: u64,
    pub chunk: usize,
}
