//! Numbers of seven bits.
ghost use Rattle.std.specs.Prelude.{◌≡◌, ◌<◌};
ghost use Rattle.std.specs.Option.{SomeIff};

use std::marker::Model;

/// A number of seven bits, such as the send and receive sequence numbers P(S) and P(R) (Q.713 sections 3.8 and 3.9).
#[derive(Clone, Copy)]
pub struct Seven {
    value: u8,
}

impl Model for Seven {
    ghost use Rattle.std.specs.Prelude.{ℕ, ◌<◌};

    ghost Value = { ℕ };

    ghost view = { λ s. s.value };

    ghost invariant = { λ s. s.value < 128 };

    ghost inverse = { λ n. record { value = n } };
}

impl Seven {
    /// The number itself. `None` above 127.
    pub fn new(value: u8) -> Option<Seven>
        ensures { SomeIff result (value < 128) value }
    {
        if value < 128 {
            Some(Seven { value })
        } else {
            None
        }
    }

    /// The number, from 0 to 127.
    pub fn value(&self) -> u8
        ensures same { result ≡ self.now }
        ensures below { self.now < 128 }
    {
        self.value
    }
}
