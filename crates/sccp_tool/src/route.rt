//! The words of the command that follows one title under empty markings.
ghost use Rattle.std.specs.Prelude.{◌≡◌};
ghost use Rattle.sccp_tool.specs.Commands.{texts};
ghost use Rattle.sccp_tool.specs.Parsed.{task_in};
ghost use Rattle.sccp_tool.specs.Route.{route_words, route_of};

use crate::command::Command;
use plan_model::Limits;
use sccp_plans::{StartWords, start_of};
use sccp_work::PlanPath;
use trace_text::is_file_name;

/// The command of the words `PLAN NODE SELECTOR SSN DIGITS`, or none if they have another shape.
#[tactic(auto, unfolding(crate::specs::Route::route_words))]
pub fn route_words<'a>(limits: Limits, words: &'a [String]) -> Option<Command<'a>>
    ensures { task_in result ≡ route_words limits (texts words.now) }
{
    match words {
        [plan, node, selector, ssn, digits] => {
            let start = StartWords {
                node: node.as_str(),
                selector: selector.as_str(),
                ssn: ssn.as_str(),
                digits: digits.as_str(),
            };
            route_of(limits, plan.as_str(), &start)
        }
        _ => None,
    }
}

/// The command of these five words.
#[tactic(auto, unfolding(crate::specs::Route::route_of))]
fn route_of<'a>(limits: Limits, plan: &'a str, start: &StartWords<'_>) -> Option<Command<'a>>
    ensures { task_in result ≡ route_of limits plan.now start.now.node.now start.now.selector.now start.now.ssn.now start.now.digits.now }
{
    if !is_file_name(plan.as_bytes()) {
        return None;
    }
    match start_of(start) {
        Some(start) => Some(Command::Route(PlanPath::new(plan, limits), start)),
        None => None,
    }
}
