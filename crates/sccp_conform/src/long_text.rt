//! A text that is too long.
ghost use Rattle.plan_model.specs.Limits.{standard};
ghost use Rattle.sccp_report.specs.Limits.{too_long_line};
ghost use Rattle.sccp_work.specs.Ending.{Works};
ghost use Rattle.sccp_work.specs.Moment.{Moment, with_sink};
ghost use Rattle.sccp_work.specs.Work.{answered};
ghost use Rattle.sccp_work.specs.declared.status.Status.TheVariants.{TooLong};

use plan_model::Limits;
use sccp_io::Sink;
use sccp_report::too_long_text;
use sccp_work::{Status, Stop, print_last};
use std::alloc::Global;

/// Prints that a text has more octets than it may have. No file is read, so the clause holds whatever the files show.
pub fn print_too_long<K: Sink>(alloc: Global, out: &mut K) -> Result<Status, Stop>
    ensures { (any : Moment) → Works (answered (TooLong, too_long_line standard)) result
        (with_sink any K.taken K.faults out.old) (with_sink any K.taken K.faults out.new) }
{
    let line = too_long_text(alloc, Limits::standard())?;
    print_last(out, line.as_slice(), Status::TooLong)
}
