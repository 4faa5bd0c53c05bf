//! The command that shows the messages of a file, one a line.
ghost use Rattle.std.specs.Prelude.{◌≡◌, ◌≤◌, IfOk, OnOk};
ghost use Rattle.trace_text.specs.Lines.{lines_of, text_line};
ghost use Rattle.sccp_tool.specs.Commands.{texts};
ghost use Rattle.sccp_work.specs.Ending.{Works};
ghost use Rattle.sccp_work.specs.Moment.{moment};
ghost use Rattle.sccp_tool.specs.Parsed.{task_in};
ghost use Rattle.sccp_tool.specs.Show.{show_words, show_work, shown_content, shown_line, shown_lines, show_answer, Gives};
ghost use Rattle.sccp_tool.specs.declared.show.ShowError.TheVariants.{Memory};

use crate::command::Command;
use crate::whole_file::whole_file;
use sccp_base::OutOfMemory;
use sccp_io::{Files, Sink};
use sccp_report::message_text;
use sccp_work::{Status, Stop, bad_line, print_last};
use std::alloc::{AllocError, Global};
use trace_text::{LineFault, LineKind, content, first_line, is_file_name, octets_of};

/// Why a line is not shown.
#[derive(Clone, Copy)]
enum ShowError {
    Memory,
    Line(LineFault),
}

impl From<AllocError> for ShowError {
    ghost from_gives = { λ _ error. error ≡ Memory };

    fn from(_: AllocError) -> Self {
        ShowError::Memory
    }
}

impl From<OutOfMemory> for ShowError {
    ghost from_gives = { λ _ error. error ≡ Memory };

    fn from(_: OutOfMemory) -> Self {
        ShowError::Memory
    }
}

/// The command of the word `FILE`, or none if the words have another shape.
#[tactic(auto, unfolding(crate::specs::Show::show_words))]
pub fn show_words(words: &[String]) -> Option<Command<'_>>
    ensures { task_in result ≡ show_words (texts words.now) }
{
    match words {
        [name] => {
            if is_file_name(name.as_bytes()) {
                Some(Command::Show(name.as_str()))
            } else {
                None
            }
        }
        _ => None,
    }
}

/// Prints the messages of a file.
pub fn show<F: Files, K: Sink>(
    alloc: Global,
    name: &str,
    files: &mut F,
    out: &mut K,
) -> Result<Status, Stop>
    ensures { Works (show_work name.now) result
        (moment F.contents F.sound F.faults K.taken K.faults files.old out.old)
        (moment F.contents F.sound F.faults K.taken K.faults files.new out.new) }
{
    let octets = whole_file(alloc, name, files, out)?;
    let (status, text) = show_answer(alloc, &octets)?;
    print_last(out, &text, status)
}

/// The answer and the text for a file of these octets: all its messages or, if a line has a fault, only that fault.
fn show_answer(alloc: Global, octets: &[u8]) -> Result<(Status, Vec<u8>), AllocError>
    ensures { IfOk result (λ answer. (answer.0, answer.1.items) ≡ show_answer octets.now) }
{
    match shown_lines(alloc, octets) {
        Ok(text) => Ok((Status::Done, text)),
        Err(ShowError::Line(fault)) => Ok((Status::BadTrace, bad_line(alloc, fault)?)),
        Err(ShowError::Memory) => Err(AllocError),
    }
}

/// The text of all lines, or the first fault.
fn shown_lines(alloc: Global, octets: &[u8]) -> Result<Vec<u8>, ShowError>
    ensures { Gives result (shown_lines 1 (lines_of octets.now)) }
{
    let mut text = Vec::new(alloc);
    let mut rest = octets;
    let mut number = 1;
    while !rest.is_empty() {
        let line = first_line(rest);
        let shown = shown_line(alloc, number, line.octets, line.ended)?;
        text.extend_from_slice(&shown)?;
        rest = line.rest;
        number += 1;
    }
    Ok(text)
}

/// The text of a line, or its fault.
fn shown_line(alloc: Global, number: u32, octets: &[u8], ended: bool) -> Result<Vec<u8>, ShowError>
    ensures text { Gives result (shown_line number (text_line octets.now ended)) }
    ensures few { OnOk result (number ≤ 1000000) }
{
    match content(number, octets, ended) {
        Ok(content) => shown_content(alloc, number, content),
        Err(fault) => Err(ShowError::Line(fault)),
    }
}

/// The text of what a line holds, or its fault. An empty line is skipped.
fn shown_content(alloc: Global, number: u32, content: &[u8]) -> Result<Vec<u8>, ShowError>
    ensures { Gives result (shown_content number content.now) }
{
    if content.is_empty() {
        return Ok(Vec::new(alloc));
    }
    match octets_of(alloc, content)? {
        Some(octets) => {
            let mut text = message_text(alloc, octets.as_slice())?;
            text.push(b'\n')?;
            Ok(text.into_vec())
        }
        None => Err(ShowError::Line(LineFault {
            number,
            kind: LineKind::NotALine,
        })),
    }
}
