//! The options of a protocol class.
ghost use Rattle.std.specs.Prelude.{◌≡◌, ◌==◌};
ghost use Rattle.sccp_base.specs.Bits.{bits};

/// Whether the octet of a protocol class asks for the return of a message that cannot be delivered. It does
/// if its bits 5 to 8 are 1000 (Q.713 section 3.6).
pub fn wants_return(class: u8) -> bool
    ensures { result ≡ (bits class 5 8 == 8) }
{
    class >> 4 == 8
}
