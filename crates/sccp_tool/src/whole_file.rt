//! A file that a command needs whole, and that is no plan.
ghost use Rattle.sccp_work.specs.Limit.{GivesWhole};
ghost use Rattle.sccp_work.specs.Moment.{moment};
ghost use Rattle.sccp_work.specs.PlanFile.{plain};

use sccp_io::{Files, Sink};
use sccp_work::{Opened, PlanPath, Stop, within_limit};
use std::alloc::Global;

/// Reads a whole file of up to 1,048,576 octets. For a longer one a line is printed, and that is the answer of the command.
pub fn whole_file<F: Files, K: Sink>(
    alloc: Global,
    name: &str,
    files: &mut F,
    out: &mut K,
) -> Result<Vec<u8>, Stop>
    ensures { GivesWhole (plain name.now) result
        (moment F.contents F.sound F.faults K.taken K.faults files.old out.old)
        (moment F.contents F.sound F.faults K.taken K.faults files.new out.new) }
{
    let file = PlanPath::plain(name);
    within_limit(alloc, Opened::First, &file, files, out)
}
