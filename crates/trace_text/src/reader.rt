//! The reader of a trace, which is fed the text in pieces.
ghost use Rattle.std.specs.Prelude.{◌≡◌, ◌≤◌, ◌++◌, [], length, true, false, Bool, List, ℕ, IfOk, OnOk, OnErr};
ghost use Rattle.trace_text.specs.Pieces.{joined};
ghost use Rattle.trace_text.specs.Told.{beginning, ahead, only, with_front, told, HasRead};

use crate::fed::Fed;
use crate::line_fault::LineFault;
use crate::reading::{last_line, take_lines};
use sccp_base::{List as Lines, OutOfMemory};
use std::alloc::Global;
use std::marker::Model;

/// A reader of a trace that arrives in pieces. It keeps only the octets of an unfinished line, at most 8,192 of them.
#[derive(Drop)]
pub struct Reader {
    alloc: Global,
    count: u32,
    unfinished: Vec<u8>,
    fault: Option<LineFault>,
    at_end: bool,
}

impl Model for Reader {
    ghost use Rattle.trace_text.specs.Told.{Standing, IsStanding};

    ghost Value = { Standing };

    ghost view = { λ r. record { count = r.count; unfinished = r.unfinished.items; fault = r.fault; at_end = r.at_end } };

    ghost invariant = { λ r. IsStanding (record { count = r.count; unfinished = r.unfinished.items; fault = r.fault; at_end = r.at_end }) };
}

impl Reader {
    /// A reader that was fed nothing. It takes no memory.
    pub fn new(alloc: Global) -> Reader
        ensures start { result ≡ beginning }
        ensures text { HasRead result [] }
    {
        Reader {
            alloc,
            count: 0,
            unfinished: Vec::new(alloc),
            fault: None,
            at_end: false,
        }
    }

    /// Takes the next piece of the text, of any length. It gives the lines that the piece completes, and the fault if there
    /// is one. Lines before a fault are given with it. After a fault, and after the end, each call gives no line and the
    /// same fault.
    ///
    /// An error is want of memory. It leaves the reader as it was, so the same piece can be fed again.
    pub fn feed(&mut self, piece: &[u8]) -> Result<Fed, OutOfMemory>
        // The result is what the definitions report of this piece.
        ensures exact { IfOk result (λ fed. fed ≡ ahead self.old false piece.now) }
        // Whatever follows the piece, the reader goes on from it.
        ensures goes_on { IfOk result (λ fed. (whole : Bool) (rest : List ℕ) →
            ahead self.old whole (piece.now ++ rest) ≡ with_front fed.lines (ahead self.new whole rest)) }
        // In terms of all octets that were fed, however they were cut.
        ensures text { (text : List ℕ) → HasRead self.old text → IfOk result (λ fed. HasRead self.new (text ++ piece.now)
            × (told false (text ++ piece.now) ≡ with_front (told false text).lines fed)) }
        // The reader keeps the fault that it reports.
        ensures fault { IfOk result (λ fed. self.new.fault ≡ fed.fault) }
        ensures short { length self.new.unfinished ≤ 8192 }
        ensures err { OnErr result (self.new ≡ self.old) }
    {
        if self.at_end {
            return Ok(self.stopped());
        }
        if self.fault.is_some() {
            return Ok(self.stopped());
        }
        let taken = take_lines(self.alloc, self.count, &self.unfinished, piece)?;
        if taken.fault.is_none() {
            go_on(self.alloc, &mut self.unfinished, taken.goes_on, taken.rest)?;
            self.count = taken.count;
        }
        self.fault = taken.fault;
        Ok(Fed {
            lines: Lines::from_vec(taken.lines),
            fault: taken.fault,
        })
    }

    /// Takes the end of the text: a last line without a line feed, unless it is empty. An error is want of memory, and leaves
    /// the reader as it was.
    pub fn finish(&mut self) -> Result<Fed, OutOfMemory>
        // The result is what the definitions report of the end.
        ensures exact { IfOk result (λ fed. fed ≡ ahead self.old true []) }
        // From now on each call gives no line and the same fault.
        ensures stops { IfOk result (λ fed. (whole : Bool) (rest : List ℕ) → ahead self.new whole rest ≡ only fed.fault) }
        // In terms of all octets that were fed, however they were cut.
        ensures text { (text : List ℕ) → HasRead self.old text
            → IfOk result (λ fed. told true text ≡ with_front (told false text).lines fed) }
        ensures short { length self.new.unfinished ≤ 8192 }
        ensures err { OnErr result (self.new ≡ self.old) }
    {
        if self.at_end {
            return Ok(self.stopped());
        }
        if self.fault.is_some() {
            self.at_end = true;
            return Ok(self.stopped());
        }
        let fed = last_line(self.alloc, self.count, &self.unfinished)?;
        self.fault = fed.fault;
        self.at_end = true;
        Ok(fed)
    }

    /// No line, and the fault that the reader keeps.
    fn stopped(&self) -> Fed
        ensures { result ≡ only self.now.fault }
    {
        Fed {
            lines: Lines::new(self.alloc),
            fault: self.fault,
        }
    }
}

/// Keeps what follows the last line feed of a piece; it goes on from what was unfinished if the piece has no line feed.
/// If memory runs out, nothing changes.
fn go_on(
    alloc: Global,
    unfinished: &mut Vec<u8>,
    goes_on: bool,
    rest: &[u8],
) -> Result<(), OutOfMemory>
    ensures ok { OnOk result (unfinished.new.items ≡ joined goes_on unfinished.old.items rest.now) }
    ensures err { OnErr result (unfinished.new.items ≡ unfinished.old.items) }
{
    if goes_on {
        unfinished.extend_from_slice(rest)?;
    } else {
        *unfinished = Vec::from_slice(alloc, rest)?;
    }
    Ok(())
}
