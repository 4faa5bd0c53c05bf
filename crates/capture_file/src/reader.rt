//! The reader of a capture file, which is fed the file in pieces.
ghost use Rattle.std.specs.Prelude.{◌≡◌, ◌≤◌, ◌++◌, ◌+◌, ◌<◌, ◌^◌, ◌↔◌, [], length, true, false, Bool, List, ℕ, IfOk, OnOk, OnErr, IsTrue};
ghost use Rattle.std.specs.Prelude.{Some, None};
ghost use Rattle.capture_file.specs.Packets.{only, with_front};
ghost use Rattle.capture_file.specs.Told.{told};
ghost use Rattle.capture_file.specs.Standings.{beginning, ahead, HasRead};
ghost use Rattle.capture_file.specs.Views.{told_as};

use crate::expected::Expected;
use crate::fed::Fed;
use crate::file_fault::FileFault;
use crate::order::Order;
use crate::pieces::{ending, take_piece};
use crate::section::Section;
use sccp_base::{List as Packets, OutOfMemory};
use std::alloc::Global;
use std::marker::Model;

/// A reader of a capture file that arrives in pieces. It keeps only the octets of an unfinished unit: at most 28, and those
/// of one packet.
#[derive(Drop)]
pub struct Reader {
    alloc: Global,
    section: Section,
    expected: Expected,
    place: u64,
    kept: Vec<u8>,
    fault: Option<FileFault>,
    at_end: bool,
}

impl Model for Reader {
    ghost use Rattle.capture_file.specs.Views.{at_of};
    ghost use Rattle.capture_file.specs.Standings.{Standing, IsStanding};

    ghost Value = { Standing };

    ghost view = { λ r. record
        { at = at_of r.expected r.section; place = r.place; kept = r.kept.items; fault = r.fault; at_end = r.at_end } };

    ghost invariant = { λ r. IsStanding
        (record { at = at_of r.expected r.section; place = r.place; kept = r.kept.items; fault = r.fault; at_end = r.at_end }) };
}

impl Reader {
    /// A reader that was fed nothing. It takes no memory.
    pub fn new(alloc: Global) -> Reader
        ensures start { result ≡ beginning }
        ensures file { HasRead result [] }
    {
        let kept = Vec::new(alloc);
        Reader {
            alloc,
            section: Section::new(alloc, Order::Big),
            expected: Expected::Heading,
            place: 0,
            kept,
            fault: None,
            at_end: false,
        }
    }

    /// Takes the next piece of the file, of any length. It gives the packets that the piece completes, and the fault if there
    /// is one. Packets before a fault are given with it. After a fault, and after the end, each call gives no packet and the
    /// same fault. Octets of a packet are lent from the piece, except if they began in an earlier piece.
    ///
    /// An error is want of memory, or a place beyond 2^64 octets. It leaves the reader as it was, so the same piece can be fed
    /// again.
    pub fn feed<'a>(&mut self, piece: &'a [u8]) -> Result<Fed<'a>, OutOfMemory>
        // The result is what the definitions report of this piece.
        ensures exact { IfOk result (λ fed. told_as fed ≡ ahead self.old false piece.now) }
        // Whatever follows the piece, the reader goes on from it.
        ensures goes_on { IfOk result (λ fed. (whole : Bool) (rest : List ℕ) →
            ahead self.old whole (piece.now ++ rest) ≡ with_front (told_as fed).packets (ahead self.new whole rest)) }
        // In terms of all octets that were fed, however they were cut.
        ensures file { (b : List ℕ) → HasRead self.old b → IfOk result (λ fed. HasRead self.new (b ++ piece.now)
            × (told false (b ++ piece.now) ≡ with_front (told false b).packets (told_as fed))) }
        // The reader keeps the fault that it reports.
        ensures fault { IfOk result (λ fed. self.new.fault ≡ fed.fault) }
        ensures short { length self.new.kept ≤ 262172 }
        ensures err { OnErr result (self.new ≡ self.old) }
    {
        if self.at_end {
            return Ok(self.stopped());
        }
        if self.fault.is_some() {
            return Ok(self.stopped());
        }
        if !has_room(self.place, self.kept.len(), piece.len()) {
            return Err(OutOfMemory);
        }
        let mut section = self.section.copy(self.alloc)?;
        let before = self.kept.len();
        match take_piece(
            self.alloc,
            &mut section,
            self.expected,
            self.place,
            &mut self.kept,
            piece,
        ) {
            Ok(taken) => {
                self.section = section;
                self.expected = taken.expected;
                self.place = taken.place;
                self.fault = taken.fault;
                Ok(Fed {
                    packets: Packets::from_vec(taken.packets),
                    fault: taken.fault,
                })
            }
            Err(refused) => {
                self.kept.truncate(before);
                Err(refused)
            }
        }
    }

    /// Takes the end of the file, and gives the fault that ends its packets, if there is one.
    pub fn finish(&mut self) -> Option<FileFault>
        // The result is what the definitions report of the end, which is no packet.
        ensures exact { only result ≡ ahead self.old true [] }
        // From now on each call gives no packet and the same fault.
        ensures stops { (whole : Bool) (rest : List ℕ) → ahead self.new whole rest ≡ only result }
        // In terms of all octets that were fed, however they were cut.
        ensures file { (b : List ℕ) → HasRead self.old b → told true b ≡ with_front (told false b).packets (only result) }
        ensures short { length self.new.kept ≤ 262172 }
    {
        if self.at_end {
            return self.fault;
        }
        if self.fault.is_some() {
            self.at_end = true;
            return self.fault;
        }
        self.fault = ending(
            self.expected,
            &self.section,
            self.place,
            self.kept.is_empty(),
        );
        self.at_end = true;
        self.fault
    }

    /// No packet, and the fault that the reader keeps.
    fn stopped<'a>(&self) -> Fed<'a>
        ensures { told_as result ≡ only self.now.fault }
    {
        Fed {
            packets: Packets::new(self.alloc),
            fault: self.fault,
        }
    }
}

/// Whether the places of so many octets more are numbers of 64 bits.
fn has_room(place: u64, kept: usize, piece: usize) -> bool
    requires { kept + piece < 2 ^ 64 }
    ensures { IsTrue result ↔ (place + (kept + piece) < 2 ^ 64) }
{
    (kept + piece) as u64 <= u64::MAX - place
}
