//! The lines that a piece of a trace completes.
ghost use Rattle.std.specs.Prelude.{◌≡◌, ◌≤◌, ◌+◌, ◌++◌, ◌==◌, length, true, IfOk, OnOk, IfNone, None, if◌then◌else◌};
ghost use Rattle.trace_text.specs.Lines.{text_line, lines_of, limit_of};
ghost use Rattle.trace_text.specs.Pieces.{IsUnfinished, Takes, midway, joined};
ghost use Rattle.trace_text.specs.Told.{numbered, told_lines};

use crate::fed::Fed;
use crate::forms::line_of;
use crate::line::Numbered;
use crate::line_fault::{LineFault, LineKind};
use crate::lines::{content, limit, line_end};
use sccp_base::{List, OutOfMemory};
use std::alloc::Global;

/// What was taken of a piece: the lines that it completes, the number of lines so far, and what follows its last line feed.
/// `goes_on` says whether that goes on from what was unfinished before. The fault, if there is one, ends the lines.
#[derive(Drop)]
pub struct Taken<'a> {
    pub lines: Vec<Numbered>,
    pub count: u32,
    pub rest: &'a [u8],
    pub goes_on: bool,
    pub fault: Option<LineFault>,
}

/// The lines that a piece completes, after that number of lines and an unfinished one. Only a line that goes on from the
/// unfinished one is copied.
pub fn take_lines<'a>(
    alloc: Global,
    before: u32,
    unfinished: &[u8],
    piece: &'a [u8],
) -> Result<Taken<'a>, OutOfMemory>
    requires few { before ≤ 1000000 }
    requires unfinished { IsUnfinished unfinished.now }
    ensures takes { IfOk result (λ taken. Takes before unfinished.now piece.now taken.lines.items
        (midway taken.count (joined taken.goes_on unfinished.now taken.rest.now) taken.fault)) }
    ensures rest { IfOk result (λ taken. IfNone taken.fault (IsUnfinished (joined taken.goes_on unfinished.now taken.rest.now))) }
{
    let mut lines = Vec::new(alloc);
    let mut count = before;
    let mut kept = unfinished;
    let mut rest = piece;
    while let Some(end) = line_end(rest) {
        match line_at(alloc, count + 1, kept, &rest[..end])? {
            Ok(line) => lines.push(line)?,
            Err(fault) => {
                return Ok(Taken {
                    lines,
                    count,
                    rest,
                    goes_on: !kept.is_empty(),
                    fault: Some(fault),
                });
            }
        }
        count += 1;
        kept = &[];
        rest = &rest[end + 1..];
    }
    Ok(Taken {
        lines,
        count,
        rest,
        goes_on: !kept.is_empty(),
        fault: limit_so_far(count + 1, kept.len() + rest.len()),
    })
}

/// The limit that an unfinished line breaks. One without octets is none yet.
fn limit_so_far(number: u32, size: usize) -> Option<LineFault>
    ensures fault { result ≡ (if size == 0 then None else limit_of number size) }
    ensures short { IfNone result (size ≤ 8192) }
{
    if size == 0 { None } else { limit(number, size) }
}

/// The line that ends after these octets, which go on from what was unfinished; or its fault.
#[tactic(auto, unfolding(crate::specs::Lines::content_of))]
fn line_at(
    alloc: Global,
    number: u32,
    unfinished: &[u8],
    octets: &[u8],
) -> Result<Result<Numbered, LineFault>, OutOfMemory>
    requires { length unfinished.now ≤ 8192 }
    ensures line { IfOk result (λ line. line ≡ numbered number (text_line (unfinished.now ++ octets.now) true)) }
    ensures few { IfOk result (λ line. OnOk line (number ≤ 1000000)) }
{
    if unfinished.is_empty() {
        return read_line(alloc, number, octets, true);
    }
    if let Some(fault) = limit(number, unfinished.len() + octets.len()) {
        return Ok(Err(fault));
    }
    let mut whole = Vec::from_slice(alloc, unfinished)?;
    whole.extend_from_slice(octets)?;
    read_line(alloc, number, &whole, true)
}

/// The line of these octets, or its fault.
fn read_line(
    alloc: Global,
    number: u32,
    octets: &[u8],
    ended: bool,
) -> Result<Result<Numbered, LineFault>, OutOfMemory>
    ensures line { IfOk result (λ line. line ≡ numbered number (text_line octets.now ended)) }
    ensures few { IfOk result (λ line. OnOk line (number ≤ 1000000)) }
{
    match content(number, octets, ended) {
        Ok(content) => match line_of(alloc, content)? {
            Some(line) => Ok(Ok(Numbered { number, line })),
            None => Ok(Err(LineFault {
                number,
                kind: LineKind::NotALine,
            })),
        },
        Err(fault) => Ok(Err(fault)),
    }
}

/// The last line, which no line feed ends; none if nothing is unfinished.
pub fn last_line(alloc: Global, before: u32, unfinished: &[u8]) -> Result<Fed, OutOfMemory>
    requires few { before ≤ 1000000 }
    requires unfinished { IsUnfinished unfinished.now }
    ensures { IfOk result (λ fed. fed ≡ told_lines true (before + 1) (lines_of unfinished.now)) }
{
    let mut lines = List::new(alloc);
    if unfinished.is_empty() {
        return Ok(Fed { lines, fault: None });
    }
    match read_line(alloc, before + 1, unfinished, false)? {
        Ok(line) => {
            lines.push(line)?;
            Ok(Fed { lines, fault: None })
        }
        Err(fault) => Ok(Fed {
            lines,
            fault: Some(fault),
        }),
    }
}
