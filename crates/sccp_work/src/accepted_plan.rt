//! The plan of a file that has to be accepted before a command goes on.
ghost use Rattle.std.specs.Prelude.{◌≡◌, ◌++◌, false, IfOk, OnOk};
ghost use Rattle.plan_text.specs.Faults.{is_memory};
ghost use Rattle.sccp_report.specs.Verdicts.{accepted_line};
ghost use Rattle.sccp_work.specs.AcceptedPlan.{GivesAcceptedOf};
ghost use Rattle.sccp_work.specs.Moment.{moment};
ghost use Rattle.sccp_work.specs.Plans.{bad_plan};
ghost use Rattle.sccp_work.specs.Writing.{Writes};

use crate::accepting::if_accepted;
use crate::limit::within_limit;
use crate::opened::Opened;
use crate::plan_path::PlanPath;
use crate::plans::bad_plan;
use crate::status::Status;
use crate::stop::{Stop, early};
use crate::writing::{after_word, print_last, put_all};
use plan_check::Accepted;
use plan_model::{Limits, PlanFault};
use sccp_base::{Octets, OutOfMemory};
use sccp_io::{Files, Sink};
use sccp_report::accepted_text;
use std::alloc::Global;

/// The plan of a file, if it is accepted, which a line after this word reports. Any other outcome is printed after the word,
/// and is the answer of the command.
pub fn with_accepted<F: Files, K: Sink>(
    alloc: Global,
    word: &[u8],
    file: &PlanPath<'_>,
    files: &mut F,
    out: &mut K,
) -> Result<Accepted, Stop>
    ensures { GivesAcceptedOf word.now file.now result
        (moment F.contents F.sound F.faults K.taken K.faults files.old out.old)
        (moment F.contents F.sound F.faults K.taken K.faults files.new out.new) }
{
    let limits = file.limits();
    let text = within_limit(alloc, Opened::First, file, files, out)?;
    match plan_text::read_within(alloc, limits, &text) {
        Ok(plan) => {
            let accepted = if_accepted(alloc, word, plan, out)?;
            match put_accepted(alloc, word, &accepted, out) {
                Ok(()) => Ok(accepted),
                Err(stop) => {
                    drop(accepted);
                    Err(stop)
                }
            }
        }
        Err(fault) => {
            let line = bad_plan_after(alloc, word, limits, &fault)?;
            Err(early(print_last(out, line.as_slice(), Status::BadPlan)))
        }
    }
}

/// Writes the line of an accepted plan, after a word.
fn put_accepted<K: Sink>(
    alloc: Global,
    word: &[u8],
    accepted: &Accepted,
    out: &mut K,
) -> Result<(), Stop>
    ensures { Writes (word.now ++ accepted_line accepted.now.bound) result (K.taken out.old) (K.taken out.new) (K.faults out.old)
        (K.faults out.new) }
{
    let line = accepted_text(alloc, accepted)?;
    let line = after_word(alloc, word, line.as_slice())?;
    put_all(out, line.as_slice())
}

/// The line on a text that is no plan, after a word. Want of memory has no line.
fn bad_plan_after(
    alloc: Global,
    word: &[u8],
    limits: Limits,
    fault: &PlanFault,
) -> Result<Octets, OutOfMemory>
    ensures line { IfOk result (λ line. line ≡ word.now ++ bad_plan limits fault.now) }
    ensures told { OnOk result (is_memory fault.now ≡ false) }
{
    let text = bad_plan(alloc, limits, fault)?;
    after_word(alloc, word, text.as_slice())
}
