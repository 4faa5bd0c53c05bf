//! The kinds of bad routes.
use sccp_base::PointCode;

/// Why a route is bad.
#[derive(Clone, Copy)]
pub enum Kind {
    /// The last step is sent to the spot of this hop.
    Loop(u8),
    /// The route has a fifteenth hop, and no two hops have the same spot.
    Long,
    /// The route ends at a place that the cover does not allow.
    Forbidden(PointCode, u8),
    /// The title cannot go on, for this cause of `Step::NoRow`.
    NoRow(u8),
    /// The new title would have more than 32 digits.
    Overgrown,
}
