//! Files that give few octets at a time.
ghost use Rattle.std.specs.Prelude.{◌≡◌, ℕ, ◌<◌, ◌≤◌, take, length, IfOk};

use crate::{Files, IoFault};

/// Other files, of which each call gives at most `most` octets, and at least one if some are left.
#[derive(Drop)]
pub struct InPieces<F: Files> {
    files: F,
    most: usize,
}

impl<F: Files> InPieces<F> {
    /// These files, with at most `most` octets at a time. For 0 it is one octet.
    pub fn new(files: F, most: usize) -> Self
        ensures { result.files ≡ files }
    {
        InPieces { files, most }
    }
}

impl<F: Files> Files for InPieces<F> {
    ghost contents = { λ m. F.contents m.files };

    ghost left = { λ m. F.left m.files };

    ghost left_beside = { λ m. F.left_beside m.files };

    ghost faults = { λ m. F.faults m.files };

    ghost sound = { λ m. F.sound m.files };

    ghost both_told = { λ m. F.both_told m.files };

    ghost both_told_beside = { λ m. F.both_told_beside m.files };

    fn begin(&mut self, name: &str) -> Result<(), IoFault> {
        self.files.begin(name)
    }

    fn take(&mut self, buffer: &mut [u8]) -> Result<usize, IoFault> {
        let count = room(buffer, self.most);
        self.files.take(&mut buffer[..count])
    }

    fn begin_beside(&mut self, name: &str) -> Result<(), IoFault> {
        self.files.begin_beside(name)
    }

    fn take_beside(&mut self, buffer: &mut [u8]) -> Result<usize, IoFault> {
        let count = room(buffer, self.most);
        self.files.take_beside(&mut buffer[..count])
    }
}

/// How many octets of a buffer are offered, one at least.
fn room(buffer: &[u8], most: usize) -> usize
    requires { 0 < length buffer.now }
    ensures some { 0 < result }
    ensures fits { result ≤ length buffer.now }
{
    if most == 0 {
        return 1;
    }
    buffer.len().min(most)
}
