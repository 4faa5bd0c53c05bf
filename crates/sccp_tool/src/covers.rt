//! The words of the command that gives a verdict on each cover of a plan by itself.
ghost use Rattle.std.specs.Prelude.{◌≡◌};
ghost use Rattle.sccp_tool.specs.Commands.{texts};
ghost use Rattle.sccp_tool.specs.Covers.{covers_words};
ghost use Rattle.sccp_tool.specs.Parsed.{task_in};

use crate::command::Command;
use plan_model::Limits;
use sccp_work::PlanPath;
use trace_text::is_file_name;

/// The command of the word `PLAN`, whose plan is read under these limits, or none if the words have another shape.
#[tactic(auto, unfolding(crate::specs::Covers::covers_words))]
pub fn covers_words<'a>(limits: Limits, words: &'a [String]) -> Option<Command<'a>>
    ensures { task_in result ≡ covers_words limits (texts words.now) }
{
    match words {
        [name] => {
            if is_file_name(name.as_bytes()) {
                Some(Command::Covers(PlanPath::new(name.as_str(), limits)))
            } else {
                None
            }
        }
        _ => None,
    }
}
