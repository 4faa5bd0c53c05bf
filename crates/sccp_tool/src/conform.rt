//! The command that judges captured messages against a plan.
ghost use Rattle.std.specs.Prelude.{◌≡◌};
ghost use Rattle.sccp_tool.specs.Commands.{texts};
ghost use Rattle.sccp_tool.specs.Conform.{conform_words, conform_of, conform_work};
ghost use Rattle.sccp_tool.specs.Parsed.{task_in};
ghost use Rattle.sccp_work.specs.Ending.{Works};
ghost use Rattle.sccp_work.specs.Moment.{moment};

use crate::command::Command;
use plan_model::Limits;
use sccp_conform::judge_file;
use sccp_io::{Files, Sink};
use sccp_work::{PlanPath, Status, Stop, with_plan};
use std::alloc::Global;
use trace_text::is_file_name;

/// The command of the words `PLAN FILE`, or none if they have another shape.
#[tactic(auto, unfolding(crate::specs::Conform::conform_words))]
pub fn conform_words<'a>(limits: Limits, words: &'a [String]) -> Option<Command<'a>>
    ensures { task_in result ≡ conform_words limits (texts words.now) }
{
    match words {
        [plan, file] => conform_of(limits, plan.as_str(), file.as_str()),
        _ => None,
    }
}

/// The command of these two words.
#[tactic(auto, unfolding(crate::specs::Conform::conform_of))]
fn conform_of<'a>(limits: Limits, plan: &'a str, file: &'a str) -> Option<Command<'a>>
    ensures { task_in result ≡ conform_of limits plan.now file.now }
{
    if !is_file_name(plan.as_bytes()) {
        return None;
    }
    if is_file_name(file.as_bytes()) {
        Some(Command::Conform(PlanPath::new(plan, limits), file))
    } else {
        None
    }
}

/// Judges the messages of a capture, or of a text of DATA messages, against the plan of another file, which is read and not verified.
pub fn conform<F: Files, K: Sink>(
    alloc: Global,
    plan: &PlanPath<'_>,
    file: &str,
    files: &mut F,
    out: &mut K,
) -> Result<Status, Stop>
    ensures { Works (conform_work plan.now file.now) result
        (moment F.contents F.sound F.faults K.taken K.faults files.old out.old)
        (moment F.contents F.sound F.faults K.taken K.faults files.new out.new) }
{
    let plan = with_plan(alloc, plan, files, out)?;
    judge_file(alloc, &plan, file, files, out)
}
