//! The cut of a text into lines, and the limits of lines.
ghost use Rattle.std.specs.Prelude.{◌≡◌, ◌<◌, ◌≤◌, ◌∷◌, length, position, MatchResult, Ok, Err, OnOk, IfNone};
ghost use Rattle.trace_text.specs.Lines.{is_line_feed, text_line, lines_of, without_return, limit_of, content_of};

use crate::line_fault::{LineFault, LineKind};
use memchr::memchr;

/// How many lines a text may have.
const MOST_LINES: u32 = 1_000_000;

/// How many octets a line may have, a carriage return at its end among them.
const LONGEST_LINE: usize = 8192;

/// The first line of a text without its line feed, whether a line feed ends it, and the octets that follow.
#[derive(Clone, Copy)]
pub struct FirstLine<'a> {
    pub octets: &'a [u8],
    pub ended: bool,
    pub rest: &'a [u8],
}

/// The first line of a text that is not empty, and what follows it. The last line may lack the line feed.
pub fn first_line(text: &[u8]) -> FirstLine<'_>
    requires { 0 < length text.now }
    ensures lines { lines_of text.now ≡ text_line result.octets.now result.ended ∷ lines_of result.rest.now }
    ensures shorter { length result.rest.now < length text.now }
{
    match line_end(text) {
        Some(end) => FirstLine {
            octets: &text[..end],
            ended: true,
            rest: &text[end + 1..],
        },
        None => FirstLine {
            octets: text,
            ended: false,
            rest: &[],
        },
    }
}

/// The place of the first line feed.
pub(crate) fn line_end(text: &[u8]) -> Option<usize>
    ensures { result ≡ position is_line_feed text.now }
{
    memchr(b'\n', text)
}

/// The limit that a line of that number and length breaks, if it breaks one. That of its number is tested first.
pub(crate) fn limit(number: u32, size: usize) -> Option<LineFault>
    ensures fault { result ≡ limit_of number size }
    ensures few { IfNone result (number ≤ 1000000) }
    ensures short { IfNone result (size ≤ 8192) }
{
    if number > MOST_LINES {
        return Some(LineFault {
            number,
            kind: LineKind::TooMany,
        });
    }
    if size > LONGEST_LINE {
        return Some(LineFault {
            number,
            kind: LineKind::TooLong,
        });
    }
    None
}

/// What a line holds: all its octets but one carriage return just before a line feed; or the limit that it breaks.
/// The limits are tested with the carriage return, first that of the line's number and then that of its length in octets.
#[tactic(auto, unfolding(crate::specs::Lines::content_of))]
pub fn content(number: u32, octets: &[u8], ended: bool) -> Result<&[u8], LineFault>
    ensures value { MatchResult result (λ content. content_of number (text_line octets.now ended) ≡ Ok content.now)
        (λ fault. content_of number (text_line octets.now ended) ≡ Err fault) }
    ensures few { OnOk result (number ≤ 1000000) }
{
    if let Some(fault) = limit(number, octets.len()) {
        return Err(fault);
    }
    if ended {
        Ok(without_return(octets))
    } else {
        Ok(octets)
    }
}

/// The octets but for a carriage return at their end.
fn without_return(octets: &[u8]) -> &[u8]
    ensures { result.now ≡ without_return octets.now }
{
    if octets.is_empty() {
        return octets;
    }
    if octets[octets.len() - 1] == b'\r' {
        &octets[..octets.len() - 1]
    } else {
        octets
    }
}
