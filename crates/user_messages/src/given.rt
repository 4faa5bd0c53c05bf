//! What a chunk gives.
use crate::place::Place;
use sccp_base::Octets;

/// What a chunk gives.
#[derive(Drop)]
pub enum Given {
    /// A whole user message, and this is its data.
    Whole(Octets),
    /// Nothing, since the chunk repeats one that arrived before.
    Repeated,
    /// Nothing yet: the chunk waits for others of its user message. If 256 chunks waited before, the first of them is given
    /// up, and this is its place.
    Waits(Option<Place>),
}
