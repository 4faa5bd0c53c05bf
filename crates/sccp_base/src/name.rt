//! Names of nodes.
ghost use Rattle.std.specs.Prelude.{◌≡◌, ◌<◌};
ghost use Rattle.std.specs.Option.{SomeIff};
ghost use Rattle.sccp_base.specs.Names.{IsName, is_name_octet, name_of};

use std::marker::Model;

/// The name of a node: 1 to 16 octets, each an ASCII letter, a digit, `_` or `-`. Contracts see it as the list of its
/// octets. It is kept in a fixed array, so a copy takes no memory.
#[derive(Clone, Copy)]
pub struct Name {
    octets: [u8; 16],
    len: u8,
}

impl Model for Name {
    ghost use Rattle.std.specs.Prelude.{ℕ, List};

    ghost Value = { List ℕ };

    ghost use Rattle.sccp_base.specs.Names.{IsNameLaidOut, name_shown, name_laid_out, name_laid_out-shown};

    ghost view = { name_shown };

    ghost invariant = { IsNameLaidOut };

    ghost inverse = { name_laid_out };

    ghost inverse_ok = { name_laid_out-shown };
}

impl Name {
    /// Reads a name. `None` if the text has no octets, more than 16, or one that a name may not have.
    pub fn parse(text: &[u8]) -> Option<Name>
        ensures name { SomeIff result (IsName text.now) text.now }
        ensures read { result ≡ name_of text.now }
    {
        laid_out(text)
    }

    /// The octets of the name.
    pub fn as_slice(&self) -> &[u8]
        ensures same { result.now ≡ self.now }
        ensures name { IsName self.now }
    {
        &self.octets[..usize::from(self.len)]
    }
}

/// The name in its array, with 0 after its octets. `None` for another text.
fn laid_out(text: &[u8]) -> Option<Name>
    ensures { SomeIff result (IsName text.now) text.now }
{
    if text.is_empty() || text.len() > 16 || !text.iter().all(|octet| is_name_octet(*octet)) {
        return None;
    }
    let mut octets = [0; 16];
    for (place, octet) in text.iter().enumerate() {
        octets[place] = *octet;
    }
    Some(Name {
        octets,
        len: text.len() as u8,
    })
}

/// Whether a name may have the octet.
fn is_name_octet(octet: u8) -> bool
    ensures { result ≡ is_name_octet octet }
{
    octet.is_ascii_alphanumeric() || octet == b'_' || octet == b'-'
}
