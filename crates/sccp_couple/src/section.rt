//! The state of one connection section.
use sccp_base::{PointCode, Reference};

/// A connection section: one end of a connection that the relay couples (Q.714 section 3).
#[derive(Clone, Copy)]
pub struct Section {
    /// The local reference that the relay gave it.
    pub own: Reference,
    /// The point at the far end of the section.
    pub point: PointCode,
    /// The local reference of that point, once it is known.
    pub remote: Option<Reference>,
    /// The own reference of the section that it is coupled with. Without one it is being released.
    pub other: Option<Reference>,
    /// Whether the connection request was received over it. Otherwise the request was sent out over it.
    pub near: bool,
}
