//! Where a look-up begins.

/// Where in the order of rows the last look-up at a table ended: how many rows are not above its titles, with the subsystem
/// number and without one. The next look-up takes fewer steps if it ends nearby. What it finds does not depend on them, so
/// those of another table will do.
#[derive(Clone, Copy)]
pub struct Hints {
    pub own: usize,
    pub plain: usize,
}

impl Hints {
    /// The beginning of the order.
    pub const START: Hints = Hints { own: 0, plain: 0 };
}
