//! The words of the command that verifies a plan.
ghost use Rattle.std.specs.Prelude.{◌≡◌};
ghost use Rattle.sccp_tool.specs.Commands.{texts};
ghost use Rattle.sccp_tool.specs.Parsed.{task_in};
ghost use Rattle.sccp_tool.specs.Verify.{verify_words};

use crate::command::Command;
use plan_model::Limits;
use sccp_work::PlanPath;
use trace_text::is_file_name;

/// The command of the word `PLAN`, whose plan is read under these limits, or none if the words have another shape.
#[tactic(auto, unfolding(crate::specs::Verify::verify_words))]
pub fn verify_words<'a>(limits: Limits, words: &'a [String]) -> Option<Command<'a>>
    ensures { task_in result ≡ verify_words limits (texts words.now) }
{
    match words {
        [name] => {
            if is_file_name(name.as_bytes()) {
                Some(Command::Verify(PlanPath::new(name.as_str(), limits)))
            } else {
                None
            }
        }
        _ => None,
    }
}
