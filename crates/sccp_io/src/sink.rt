//! Sinks, to which output is written.
ghost use Rattle.std.specs.Prelude.{ℕ, ◌<◌, List, Option, length};
ghost use Rattle.sccp_io.specs.Sinks.{TakesFront};

use crate::IoFault;

/// A sink of octets. Want of memory is the only fault that may go uncounted.
pub trait Sink {
    /// The octets taken so far, if the object shows them. Whether it does never changes.
    ghost taken: { Self → Option (List ℕ) };

    /// How often the object has failed. The count never falls.
    ghost faults: { Self → ℕ };

    /// Takes one or more octets from the front of the piece, and gives their number. `Failed` is answered only if the count of
    /// faults rose.
    fn put(&mut self, piece: &[u8]) -> Result<usize, IoFault>
        requires { 0 < length piece.now }
        ensures { TakesFront piece.now result (taken self.old) (taken self.new) (faults self.old) (faults self.new) };
}
