//! The words of the command that says whether relays may hold either of two plans.
ghost use Rattle.std.specs.Prelude.{◌≡◌};
ghost use Rattle.sccp_tool.specs.Change.{change_of, change_words};
ghost use Rattle.sccp_tool.specs.Commands.{texts};
ghost use Rattle.sccp_tool.specs.Parsed.{task_in};

use crate::command::Command;
use plan_model::Limits;
use sccp_work::PlanPath;
use trace_text::is_file_name;

/// The command of the words `OLD NEW`, or none if they have another shape.
#[tactic(auto, unfolding(crate::specs::Change::change_words))]
pub fn change_words<'a>(limits: Limits, words: &'a [String]) -> Option<Command<'a>>
    ensures { task_in result ≡ change_words limits (texts words.now) }
{
    match words {
        [old, new] => change_of(limits, old.as_str(), new.as_str()),
        _ => None,
    }
}

/// The command of these two words.
#[tactic(auto, unfolding(crate::specs::Change::change_of))]
fn change_of<'a>(limits: Limits, old: &'a str, new: &'a str) -> Option<Command<'a>>
    ensures { task_in result ≡ change_of limits old.now new.now }
{
    if !is_file_name(old.as_bytes()) {
        return None;
    }
    if !is_file_name(new.as_bytes()) {
        return None;
    }
    Some(Command::Change(PlanPath::new(old, limits), PlanPath::new(new, limits)))
}
