//! The words of the command that replays a trace over the relays of a plan.
ghost use Rattle.std.specs.Prelude.{◌≡◌};
ghost use Rattle.sccp_tool.specs.Commands.{texts};
ghost use Rattle.sccp_tool.specs.Parsed.{task_in};
ghost use Rattle.sccp_tool.specs.Replay.{replay_of, replay_words};

use crate::command::Command;
use plan_model::Limits;
use sccp_replay::Workers;
use sccp_work::PlanPath;
use trace_text::is_file_name;

/// The command of the words `PLAN TRACE WORKERS`, or none if they have another shape.
#[tactic(auto, unfolding(crate::specs::Replay::replay_words))]
pub fn replay_words<'a>(limits: Limits, words: &'a [String]) -> Option<Command<'a>>
    ensures { task_in result ≡ replay_words limits (texts words.now) }
{
    match words {
        [plan, trace, workers] => {
            replay_of(limits, plan.as_str(), trace.as_str(), workers.as_str())
        }
        _ => None,
    }
}

/// The command of these three words.
#[tactic(auto, unfolding(crate::specs::Replay::replay_of))]
fn replay_of<'a>(
    limits: Limits,
    plan: &'a str,
    trace: &'a str,
    workers: &str,
) -> Option<Command<'a>>
    ensures { task_in result ≡ replay_of limits plan.now trace.now workers.now }
{
    if !is_file_name(plan.as_bytes()) {
        return None;
    }
    if !is_file_name(trace.as_bytes()) {
        return None;
    }
    match Workers::parse(workers.as_bytes()) {
        Some(workers) => Some(Command::Replay(PlanPath::new(plan, limits), trace, workers)),
        None => None,
    }
}
