//! Local references.
ghost use Rattle.std.specs.Prelude.{◌≡◌, ◌<◌, ◌^◌};
ghost use Rattle.std.specs.Option.{SomeIff};

use std::marker::Model;

/// A local reference: a number of 24 bits (Q.713 sections 3.2 and 3.3).
#[derive(Clone, Copy, PartialEq, Eq)]
pub struct Reference {
    value: u32,
}

impl Model for Reference {
    ghost use Rattle.std.specs.Prelude.{ℕ, ◌<◌, ◌^◌};

    ghost Value = { ℕ };

    ghost view = { λ r. r.value };

    ghost invariant = { λ r. r.value < 2 ^ 24 };

    ghost inverse = { λ n. record { value = n } };
}

impl Reference {
    /// The reference of a number. `None` from 2 to the power of 24 on.
    pub fn new(value: u32) -> Option<Reference>
        ensures { SomeIff result (value < 2 ^ 24) value }
    {
        if value < 0x0100_0000 {
            Some(Reference { value })
        } else {
            None
        }
    }

    /// The number, below 2 to the power of 24.
    pub fn value(&self) -> u32
        ensures same { result ≡ self.now }
        ensures below { self.now < 2 ^ 24 }
    {
        self.value
    }
}
