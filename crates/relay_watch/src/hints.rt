//! Where an arrival like the one at hand may be.

/// The places of the last eight arrivals that were compared with a message. They are hints: whoever takes one looks whether the arrival
/// there is the same.
#[derive(Drop)]
pub(crate) struct Hints {
    places: [usize; 8],
    next: usize,
}

impl Hints {
    /// No arrival was compared. At place 0 there may be one as well.
    pub(crate) fn new() -> Self {
        Hints {
            places: [0; 8],
            next: 0,
        }
    }

    /// The places.
    pub(crate) fn places(&self) -> &[usize] {
        &self.places
    }

    /// Remembers a place instead of the oldest.
    pub(crate) fn note(&mut self, place: usize) {
        self.places[self.next % 8] = place;
        self.next = (self.next % 8 + 1) % 8;
    }
}
