//! The result of a look at one connection: its path, and the data that entered and left it.
use sccp_base::{List, Octets, PointCode};

/// What a DT1 carries: the M bit and the data.
#[derive(Drop)]
pub struct Piece {
    pub more: bool,
    pub payload: Octets,
}

/// A connection over several relays, from an end's point and the reference that it gave.
#[derive(Drop)]
pub struct Line {
    /// The places of the relays in the plan, in order.
    pub path: List<u8>,
    /// The point of the end after the last of them.
    pub far: PointCode,
    /// What the first relay passed on from the end that the line begins at.
    pub forth_in: List<Piece>,
    /// What the far end was handed.
    pub forth_out: List<Piece>,
    /// What the last relay passed on from the far end.
    pub back_in: List<Piece>,
    /// What the end that the line begins at was handed.
    pub back_out: List<Piece>,
}
