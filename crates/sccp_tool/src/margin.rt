//! The words of the command that says how many losses there can be before a title of a cover is stopped.
ghost use Rattle.std.specs.Prelude.{◌≡◌};
ghost use Rattle.sccp_tool.specs.Commands.{texts};
ghost use Rattle.sccp_tool.specs.Margin.{margin_with, margin_of_kinds, margin_words};
ghost use Rattle.sccp_tool.specs.Parsed.{task_in};

use crate::command::Command;
use plan_margin::LossKinds;
use plan_model::Limits;
use sccp_plans::Losses;
use sccp_work::PlanPath;
use trace_text::is_file_name;

/// The command of the words `PLAN LOSSES` or `PLAN LOSSES subsystems`, or none if they have another shape.
#[tactic(auto, unfolding(crate::specs::Margin::margin_words))]
pub fn margin_words<'a>(limits: Limits, words: &'a [String]) -> Option<Command<'a>>
    ensures { task_in result ≡ margin_words limits (texts words.now) }
{
    match words {
        [name, losses] => margin_with(limits, LossKinds::Points, name.as_str(), losses.as_str()),
        [name, losses, kinds] => {
            margin_of_kinds(limits, name.as_str(), losses.as_str(), kinds.as_str())
        }
        _ => None,
    }
}

/// The command of these words, the last of which says that subsystems count as well.
#[tactic(auto, unfolding(crate::specs::Margin::margin_of_kinds))]
fn margin_of_kinds<'a>(
    limits: Limits,
    name: &'a str,
    losses: &str,
    kinds: &str,
) -> Option<Command<'a>>
    ensures { task_in result ≡ margin_of_kinds limits name.now losses.now kinds.now }
{
    if kinds == "subsystems" {
        margin_with(limits, LossKinds::PointsAndSubsystems, name, losses)
    } else {
        None
    }
}

/// The command of these two words, if losses of these kinds count.
#[tactic(auto, unfolding(crate::specs::Margin::margin_with))]
fn margin_with<'a>(
    limits: Limits,
    kinds: LossKinds,
    name: &'a str,
    losses: &str,
) -> Option<Command<'a>>
    ensures { task_in result ≡ margin_with limits kinds name.now losses.now }
{
    if !is_file_name(name.as_bytes()) {
        return None;
    }
    match Losses::parse(losses.as_bytes(), kinds) {
        Some(losses) => Some(Command::Margin(PlanPath::new(name, limits), losses)),
        None => None,
    }
}
