//! What a line is about.

/// What a line is about: a packet, or a chunk of it. Both are counted from 1.
#[derive(Clone, Copy)]
pub struct Subject {
    pub packet: u64,
    pub chunk: Option<usize>,
}
