//! The command that makes a trace of a file of DATA messages of M3UA, one a line.
ghost use Rattle.std.specs.Prelude.{◌≡◌, IfOk};
ghost use Rattle.sccp_tool.specs.Commands.{texts};
ghost use Rattle.sccp_work.specs.Ending.{Works};
ghost use Rattle.sccp_tool.specs.Import.{import_words, import_of, import_answer, trace_work, import_work};
ghost use Rattle.sccp_work.specs.Moment.{moment};
ghost use Rattle.sccp_tool.specs.Parsed.{task_in};

use crate::command::Command;
use crate::whole_file::whole_file;
use m3ua_trace::ImportError;
use plan_model::{Limits, Plan};
use sccp_io::{Files, Sink};
use sccp_work::{PlanPath, Status, Stop, bad_line, print_last, with_plan};
use std::alloc::{AllocError, Global};
use trace_text::is_file_name;

/// The command of the words `PLAN FILE`, or none if they have another shape.
#[tactic(auto, unfolding(crate::specs::Import::import_words))]
pub fn import_words<'a>(limits: Limits, words: &'a [String]) -> Option<Command<'a>>
    ensures { task_in result ≡ import_words limits (texts words.now) }
{
    match words {
        [plan, file] => import_of(limits, plan.as_str(), file.as_str()),
        _ => None,
    }
}

/// The command of these two words.
#[tactic(auto, unfolding(crate::specs::Import::import_of))]
fn import_of<'a>(limits: Limits, plan: &'a str, file: &'a str) -> Option<Command<'a>>
    ensures { task_in result ≡ import_of limits plan.now file.now }
{
    if !is_file_name(plan.as_bytes()) {
        return None;
    }
    if is_file_name(file.as_bytes()) {
        Some(Command::Import(PlanPath::new(plan, limits), file))
    } else {
        None
    }
}

/// Prints the trace of a file under the plan of another, which is read and not verified.
pub fn import<F: Files, K: Sink>(
    alloc: Global,
    plan: &PlanPath<'_>,
    file: &str,
    files: &mut F,
    out: &mut K,
) -> Result<Status, Stop>
    ensures { Works (import_work plan.now file.now) result
        (moment F.contents F.sound F.faults K.taken K.faults files.old out.old)
        (moment F.contents F.sound F.faults K.taken K.faults files.new out.new) }
{
    let plan = with_plan(alloc, plan, files, out)?;
    print_trace(alloc, &plan, file, files, out)
}

/// Prints the trace of a file under a plan.
fn print_trace<F: Files, K: Sink>(
    alloc: Global,
    plan: &Plan,
    file: &str,
    files: &mut F,
    out: &mut K,
) -> Result<Status, Stop>
    ensures { Works (trace_work plan.now file.now) result
        (moment F.contents F.sound F.faults K.taken K.faults files.old out.old)
        (moment F.contents F.sound F.faults K.taken K.faults files.new out.new) }
{
    let octets = whole_file(alloc, file, files, out)?;
    let (status, text) = import_answer(alloc, plan, &octets)?;
    print_last(out, &text, status)
}

/// The answer and the text for a file of these octets: its trace or, if a line has a fault, only that fault.
fn import_answer(alloc: Global, plan: &Plan, octets: &[u8]) -> Result<(Status, Vec<u8>), AllocError>
    ensures { IfOk result (λ answer. (answer.0, answer.1.items) ≡ import_answer plan.now octets.now) }
{
    match m3ua_trace::import(alloc, plan, octets) {
        Ok(text) => Ok((Status::Done, text)),
        Err(ImportError::Line(fault)) => Ok((Status::BadTrace, bad_line(alloc, fault)?)),
        Err(ImportError::Memory) => Err(AllocError),
    }
}
