//! Octets lent from a message.
use std::marker::Model;

/// Octets lent from a message: its fixed part, or the contents of a variable one (Q.713 section 1).
#[derive(Drop)]
pub struct Part<'a> {
    octets: &'a [u8],
}

impl<'a> Model for Part<'a> {
    ghost use Rattle.std.specs.Prelude.{ℕ, List};

    ghost Value = { List ℕ };

    ghost view = { λ p. p.octets.now };
}

impl<'a> Part<'a> {
    ghost use Rattle.std.specs.Prelude.{◌≡◌};

    /// A part of these octets.
    pub fn new(octets: &'a [u8]) -> Part<'a>
        ensures { result ≡ octets.now }
    {
        Part { octets }
    }

    /// The octets, without pointer and length.
    pub fn as_slice(&self) -> &[u8]
        ensures { result.now ≡ self.now }
    {
        self.octets
    }
}
