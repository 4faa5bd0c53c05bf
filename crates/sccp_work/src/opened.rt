//! The two files that may be open at once.
ghost use Rattle.std.specs.Prelude.{◌≡◌, ◌<◌, length};
ghost use Rattle.sccp_io.specs.Files.{BeginsFile, TakesNext};
ghost use Rattle.sccp_work.specs.Opened.{this, other};

use sccp_io::{Files, IoFault};

/// Which of the two files that may be open.
#[derive(Clone, Copy)]
pub enum Opened {
    /// The one that a command reads first of all.
    First,
    /// One that is read while the first one is open.
    Beside,
}

/// Opens the file of that name as this one of the two, at its first octet. An error is a fault of the files or want of
/// memory.
pub fn begin<F: Files>(files: &mut F, which: Opened, name: &str) -> Result<(), IoFault>
    ensures begins { BeginsFile name.now result (F.contents files.old) (F.sound files.old)
        (this which (F.left files.old) (F.left_beside files.old)) (this which (F.left files.new) (F.left_beside files.new))
        (F.faults files.old) (F.faults files.new) }
    ensures other { other which (F.left files.new) (F.left_beside files.new) ≡ other which (F.left files.old) (F.left_beside files.old) }
    ensures contents { F.contents files.new ≡ F.contents files.old }
    ensures soundness { F.sound files.new ≡ F.sound files.old }
{
    match which {
        Opened::First => files.begin(name),
        Opened::Beside => files.begin_beside(name),
    }
}

/// Puts the next octets of this one of the two files at the front of the buffer, and answers their number. It is 0 only at
/// the end of the file.
pub fn take<F: Files>(files: &mut F, which: Opened, buffer: &mut [u8]) -> Result<usize, IoFault>
    requires { 0 < length buffer.old }
    ensures takes { TakesNext buffer.new result (F.sound files.old)
        (this which (F.left files.old) (F.left_beside files.old)) (this which (F.left files.new) (F.left_beside files.new))
        (F.faults files.old) (F.faults files.new) }
    ensures other { other which (F.left files.new) (F.left_beside files.new) ≡ other which (F.left files.old) (F.left_beside files.old) }
    ensures contents { F.contents files.new ≡ F.contents files.old }
    ensures soundness { F.sound files.new ≡ F.sound files.old }
{
    match which {
        Opened::First => files.take(buffer),
        Opened::Beside => files.take_beside(buffer),
    }
}
