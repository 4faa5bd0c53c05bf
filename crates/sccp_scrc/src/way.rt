//! The ways of a service message.
use sccp_base::{Mark, PointCode};

/// How a service message goes back (Q.714 section 4.2).
#[derive(Clone, Copy)]
pub enum Way {
    /// To this point: that of the calling address, or the one from which the message arrived.
    Direct(PointCode),
    /// Not at all: this mark of that point is held.
    Shut(Mark),
    /// By translation, as an arrival at the node that returns the message.
    ByTitle,
}
