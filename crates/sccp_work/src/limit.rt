//! A file that a command needs whole.
ghost use Rattle.std.specs.Prelude.{◌≡◌};
ghost use Rattle.sccp_work.specs.Limit.{GivesWhole};
ghost use Rattle.sccp_work.specs.Moment.{moment};
ghost use Rattle.sccp_work.specs.Opened.{other};

use crate::opened::Opened;
use crate::plan_path::PlanPath;
use crate::reading::read_whole;
use crate::status::Status;
use crate::stop::{Stop, early};
use crate::writing::print_last;
use sccp_io::{Files, Sink};
use sccp_report::too_long_text;
use std::alloc::Global;

/// Reads a whole file. For one that has more octets than its limits allow a line is printed, and that is the answer of the
/// command.
pub fn within_limit<F: Files, K: Sink>(
    alloc: Global,
    which: Opened,
    file: &PlanPath<'_>,
    files: &mut F,
    out: &mut K,
) -> Result<Vec<u8>, Stop>
    ensures whole { GivesWhole file.now result
        (moment F.contents F.sound F.faults K.taken K.faults files.old out.old)
        (moment F.contents F.sound F.faults K.taken K.faults files.new out.new) }
    // What is left of the other file stays.
    ensures other { other which (F.left files.new) (F.left_beside files.new) ≡ other which (F.left files.old) (F.left_beside files.old) }
{
    let limits = file.limits();
    match read_whole(alloc, files, which, file.name(), limits.octets as usize)? {
        Some(octets) => Ok(octets),
        None => {
            let line = too_long_text(alloc, limits)?;
            Err(early(print_last(out, line.as_slice(), Status::TooLong)))
        }
    }
}
