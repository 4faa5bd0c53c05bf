//! The command that shows every cut of a message.
ghost use Rattle.std.specs.Prelude.{◌≡◌, IfOk};
ghost use Rattle.sccp_report.specs.CutsText.{cuts_text};
ghost use Rattle.sccp_tool.specs.Commands.{texts};
ghost use Rattle.sccp_tool.specs.Cuts.{cuts_words};
ghost use Rattle.sccp_tool.specs.Parsed.{task_in};
ghost use Rattle.sccp_work.specs.Writing.{Writes};

use crate::command::Command;
use sccp_base::OutOfMemory;
use sccp_io::Sink;
use sccp_report::cuts_text;
use sccp_work::{Status, Stop, print_last};
use std::alloc::Global;
use trace_text::octets_of;

/// The command of the word `HEX`, the octets of the message; none if the words have another shape.
#[tactic(auto, unfolding(crate::specs::Cuts::cuts_words))]
pub fn cuts_words(alloc: Global, words: &[String]) -> Result<Option<Command<'_>>, OutOfMemory>
    ensures { IfOk result (λ command. task_in command ≡ cuts_words (texts words.now)) }
{
    match words {
        [digits] => match octets_of(alloc, digits.as_bytes())? {
            Some(octets) => Ok(Some(Command::Cuts(octets))),
            None => Ok(None),
        },
        _ => Ok(None),
    }
}

/// Prints a line for each cut of these octets, from none of them to all.
pub fn cuts<K: Sink>(alloc: Global, octets: &[u8], out: &mut K) -> Result<Status, Stop>
    ensures text { Writes (cuts_text octets.now) result (K.taken out.old) (K.taken out.new) (K.faults out.old) (K.faults out.new) }
    ensures answer { IfOk result (λ status. status ≡ Status.Done) }
{
    let text = cuts_text(alloc, octets)?;
    print_last(out, text.as_slice(), Status::Done)
}
