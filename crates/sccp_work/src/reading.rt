//! Reading a whole file within a limit.
ghost use Rattle.std.specs.Prelude.{◌≡◌, ◌<◌, ◌^◌};
ghost use Rattle.sccp_work.specs.Opened.{other};
ghost use Rattle.sccp_work.specs.Reading.{ReadsFile, reading_stop};

use crate::opened::{Opened, begin, take};
use crate::stop::Stop;
use sccp_io::{Files, IoFault};
use std::alloc::Global;

/// How many octets are taken at a time.
const PIECE: usize = 4096;

/// Reads a whole file, or none of it if it has more octets than the limit.
pub fn read_whole<F: Files>(
    alloc: Global,
    files: &mut F,
    which: Opened,
    name: &str,
    limit: usize,
) -> Result<Option<Vec<u8>>, Stop>
    requires { limit < 2 ^ 32 }
    ensures reads { ReadsFile name.now limit result (F.contents files.old) (F.contents files.new) (F.sound files.old) (F.sound files.new)
        (F.faults files.old) (F.faults files.new) }
    // What is left of the other file stays.
    ensures other { other which (F.left files.new) (F.left_beside files.new) ≡ other which (F.left files.old) (F.left_beside files.old) }
{
    if let Err(fault) = begin(files, which, name) {
        return Err(stopped(fault));
    }
    let mut octets = Vec::new(alloc);
    let mut piece = [0u8; PIECE];
    while octets.len() <= limit {
        let count = match take(files, which, &mut piece) {
            Ok(count) => count,
            Err(fault) => return Err(stopped(fault)),
        };
        if count == 0 {
            return Ok(Some(octets));
        }
        octets.extend_from_slice(&piece[..count])?;
    }
    Ok(None)
}

/// How a fault of the files stops the work.
pub fn stopped(fault: IoFault) -> Stop
    ensures { result ≡ reading_stop fault }
{
    match fault {
        IoFault::Failed => Stop::Read,
        IoFault::OutOfMemory => Stop::Memory,
    }
}
