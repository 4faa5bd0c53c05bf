//! A file of DATA messages, one a line in hexadecimal digits.
ghost use Rattle.std.specs.Prelude.{◌≡◌, ◌≤◌, ◌++◌, ◌∷◌, [], IfOk, OnOk, MatchResult, Ok, Err};
ghost use Rattle.trace_text.specs.Lines.{lines_of, text_line};
ghost use Rattle.m3ua_trace.specs.Traces.{held_octets, octets_of_line, text_of_octets, trace_of, IsTraceOf, Gives, GivesOctets};

use crate::import_error::ImportError;
use crate::importing::put_imported;
use plan_model::Plan;
use sccp_base::{Octets, OutOfMemory};
use std::alloc::Global;
use trace_text::{LineFault, LineKind, content, first_line, octets_of};

/// The octets of what a line holds, none if it is empty, or its fault.
fn held_octets(alloc: Global, number: u32, content: &[u8]) -> Result<Octets, ImportError>
    ensures { GivesOctets result (held_octets number content.now) }
{
    if content.is_empty() {
        return Ok(Octets::new(alloc));
    }
    match octets_of(alloc, content)? {
        Some(octets) => Ok(octets),
        None => Err(ImportError::Line(LineFault {
            number,
            kind: LineKind::NotALine,
        })),
    }
}

/// The octets of the word of hexadecimal digits in the line of that number, none if it is empty, or its fault, or want of memory.
/// The octets of the line are those before its line feed, if one ended it.
pub fn octets_of_line(
    alloc: Global,
    number: u32,
    octets: &[u8],
    ended: bool,
) -> Result<Octets, ImportError>
    ensures octets { GivesOctets result (octets_of_line number (text_line octets.now ended)) }
    ensures few { OnOk result (number ≤ 1000000) }
{
    match content(number, octets, ended) {
        Ok(content) => held_octets(alloc, number, content),
        Err(fault) => Err(ImportError::Line(fault)),
    }
}

/// Appends the line of a trace for octets, and an empty line if there are none.
fn put_line(
    alloc: Global,
    text: &mut Vec<u8>,
    plan: &Plan,
    octets: &[u8],
) -> Result<(), OutOfMemory>
    ensures { OnOk result (text.new.items ≡ text.old.items ++ (text_of_octets plan.now octets.now ++ 10 ∷ [])) }
{
    if !octets.is_empty() {
        put_imported(alloc, text, plan, octets)?;
    }
    text.push(b'\n')?;
    Ok(())
}

/// The trace of a file, with one line for each of its lines. This is the message of SCCP that a DATA message carries to a
/// node of the plan, or a line that is skipped. An empty line gives an empty line. Otherwise a skipped line is the first
/// that holds of `# refused F` with the number of the fault, `# service N`, `# point`, `# unknown node` and `# empty`. The
/// error is the first line that is not a word of hexadecimal digits or breaks a limit of lines, or want of memory.
pub fn import(alloc: Global, plan: &Plan, file: &[u8]) -> Result<Vec<u8>, ImportError>
    ensures exact { Gives result (trace_of plan.now file.now) }
    ensures trace { IfOk result (λ text. IsTraceOf plan.now file.now text.items) }
{
    let mut text = Vec::new(alloc);
    let mut rest = file;
    let mut number = 1;
    while !rest.is_empty() {
        let line = first_line(rest);
        let octets = octets_of_line(alloc, number, line.octets, line.ended)?;
        let held = octets.as_slice();
        put_line(alloc, &mut text, plan, held)?;
        rest = line.rest;
        number += 1;
    }
    Ok(text)
}
