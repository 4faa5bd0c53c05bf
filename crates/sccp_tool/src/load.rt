//! The command that makes a plan and messages from a number, and counts what becomes of the messages.
ghost use Rattle.std.specs.Prelude.{◌≡◌, ◌<◌, ◌^◌, ◌++◌, IfOk, OnOk};
ghost use Rattle.sccp_tool.specs.Commands.{texts};
ghost use Rattle.sccp_work.specs.Ending.{Works};
ghost use Rattle.sccp_tool.specs.Load.{count_line, counts_text, load_of, load_words, load_work, number_to};
ghost use Rattle.sccp_tool.specs.Parsed.{task_in};
ghost use Rattle.sccp_work.specs.Moment.{Moment, with_sink};
ghost use Rattle.sccp_work.specs.Writing.{Writes};

use crate::command::Command;
use made_load::{Counts, load_counts, load_plan};
use sccp_base::{Octets, OutOfMemory, decimal};
use sccp_io::Sink;
use sccp_replay::Workers;
use sccp_report::Text;
use sccp_work::{Status, Stop, if_accepted, print_last};
use std::alloc::Global;
use std::thread::Threads;

/// The command of the words `NUMBER SIZE WORKERS`, or none if they have another shape.
#[tactic(auto, unfolding(crate::specs::Load::load_words))]
pub fn load_words(words: &[String]) -> Option<Command<'_>>
    ensures { task_in result ≡ load_words (texts words.now) }
{
    match words {
        [number, size, workers] => load_of(number.as_str(), size.as_str(), workers.as_str()),
        _ => None,
    }
}

/// The command of these three words.
#[tactic(auto, unfolding(crate::specs::Load::load_of))]
fn load_of<'a>(number: &str, size: &str, workers: &str) -> Option<Command<'a>>
    ensures { task_in result ≡ load_of number.now size.now workers.now }
{
    let number = number_to(number.as_bytes(), u32::MAX)?;
    let size = number_to(size.as_bytes(), 100_000)?;
    match Workers::parse(workers.as_bytes()) {
        Some(workers) => Some(Command::Load(number, size, workers)),
        None => None,
    }
}

/// The number that one to ten decimal digits spell, if it is at most the given one.
fn number_to(word: &[u8], most: u32) -> Option<u32>
    ensures { result ≡ number_to most word.now }
{
    match decimal(word, 10) {
        Some(value) => {
            if value <= u64::from(most) {
                Some(value as u32)
            } else {
                None
            }
        }
        None => None,
    }
}

/// Makes the plan of a number, sends this number of messages over its relays if it is accepted, and prints the counts. They
/// are the same for each number of workers. No file is read, so the clause holds whatever the files show.
pub fn load<R: Threads + Sync, K: Sink>(
    rt: &R,
    alloc: Global,
    number: u32,
    size: u32,
    workers: &Workers,
    out: &mut K,
) -> Result<Status, Stop>
    ensures { (any : Moment) → Works (load_work number size) result
        (with_sink any K.taken K.faults out.old) (with_sink any K.taken K.faults out.new) }
{
    let plan = load_plan(alloc, number)?;
    let accepted = if_accepted(alloc, b"", plan, out)?;
    let counted = load_counts(rt, alloc, &accepted, number, size, workers.count());
    drop(accepted);
    print_counts(alloc, &counted?, out)
}

/// Prints the counts.
fn print_counts<K: Sink>(alloc: Global, counts: &Counts, out: &mut K) -> Result<Status, Stop>
    ensures text { Writes (counts_text counts.now) result (K.taken out.old) (K.taken out.new) (K.faults out.old) (K.faults out.new) }
    ensures answer { IfOk result (λ s. s ≡ Status.Done) }
{
    let text = counts_text(alloc, counts)?;
    print_last(out, text.as_slice(), Status::Done)
}

/// The four counts, a line each.
#[tactic(auto, unfolding(crate::specs::Load::counts_text))]
fn counts_text(alloc: Global, counts: &Counts) -> Result<Octets, OutOfMemory>
    ensures { IfOk result (λ text. text ≡ counts_text counts.now) }
{
    let mut text = Text::new(alloc);
    put_count(&mut text, b"messages ", counts.messages)?;
    put_count(&mut text, b"ended ", counts.ended)?;
    put_count(&mut text, b"returned ", counts.returned)?;
    put_count(&mut text, b"translations ", counts.translations)?;
    Ok(text.into_octets())
}

#[tactic(auto, unfolding(crate::specs::Load::count_line))]
fn put_count(text: &mut Text, name: &[u8], count: usize) -> Result<(), OutOfMemory>
    ensures { OnOk result (text.new ≡ text.old ++ count_line name.now count) }
{
    text.put_counted(name, count)?;
    text.put(b"\n")
}
