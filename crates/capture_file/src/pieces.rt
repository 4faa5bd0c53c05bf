//! The units that a piece of a capture file completes.
ghost use Rattle.std.specs.Prelude.{◌≡◌, if◌then◌else◌, true, ◌<◌, ◌≤◌, ◌+◌, ◌^◌, [], ◌++◌, length, take, drop, map, List, ℕ, ◌==◌, IfNone};
ghost use Rattle.std.specs.Prelude.{IfOk, OnOk};
ghost use Rattle.std.specs.Prelude.{OnErr};
ghost use Rattle.capture_file.specs.Packets.{only};
ghost use Rattle.capture_file.specs.Units.{Needs};
ghost use Rattle.capture_file.specs.Steps.{step_at};
ghost use Rattle.capture_file.specs.Told.{ending};
ghost use Rattle.capture_file.specs.Standings.{GoesOn, Ends, TakesPiece, IsStanding, midway, left};
ghost use Rattle.capture_file.specs.Views.{at_of, captured};

use crate::expected::Expected;
use crate::file_fault::FileFault;
use crate::held::Held;
use crate::progress::{Progress, put_joined, put_lent};
use crate::section::Section;
use crate::step::Reading;
use crate::units::unit;
use sccp_base::OutOfMemory;
use std::alloc::Global;

/// Takes the whole units at the front of the octets. Their packets are lent.
pub fn take_units<'a>(
    alloc: Global,
    packets: Vec<Held<'a>>,
    section: &mut Section,
    start: Expected,
    from: u64,
    octets: &'a [u8],
) -> Result<Progress<'a>, OutOfMemory>
    requires { from + length octets.now < 2 ^ 64 }
    ensures goes_on { IfOk result (λ p. GoesOn (map captured packets.entry.items) (at_of start section.old) from octets.now
        (map captured p.packets.items) (at_of p.expected section.new) p.place p.rest.now) }
    ensures ends { IfOk result (λ p. Ends p.fault (at_of p.expected section.new) p.place p.rest.now) }
    ensures short { IfOk result (λ p. IfNone p.fault (length p.rest.now ≤ 262172)) }
{
    let mut packets = packets;
    let mut expected = start;
    let mut place = from;
    let mut rest = octets;
    'units: loop {
        match unit(expected, section, place, rest) {
            Reading::Read(read) => {
                put_lent(&mut packets, read.content)?;
                section.change(alloc, read.change)?;
                expected = read.next;
                place += read.used as u64;
                rest = &rest[read.used..];
            }
            Reading::Unfinished(_) => {
                return Ok(Progress {
                    packets,
                    expected,
                    place,
                    rest,
                    fault: None,
                });
            }
            Reading::Refused(fault) => {
                return Ok(Progress {
                    packets,
                    expected,
                    place,
                    rest,
                    fault: Some(fault),
                });
            }
        }
    }
}

/// Moves octets from the piece to the end of what is kept, until the unit that begins after the taken octets can be read or
/// the piece is used up. Gives the rest of the piece.
fn fill<'a>(
    expected: Expected,
    section: &Section,
    place: u64,
    taken: usize,
    kept: &mut Vec<u8>,
    piece: &'a [u8],
) -> Result<&'a [u8], OutOfMemory>
    requires { taken ≤ length kept.old.items }
    ensures joined { IfOk result (λ rest. drop taken kept.new.items ++ rest.now ≡ drop taken kept.old.items ++ piece.now) }
    ensures used_up { IfOk result (λ rest. step_at (at_of expected section.now) place (drop taken kept.new.items) ≡ Needs → rest.now ≡ []) }
    ensures front { take (length kept.old.items) kept.new.items ≡ kept.old.items }
    ensures longer { length kept.old.items ≤ length kept.new.items }
{
    let mut rest = piece;
    'moves: while !rest.is_empty() {
        let Reading::Unfinished(asked) = unit(expected, section, place, &kept[taken..]) else {
            return Ok(rest);
        };
        let count = rest.len().min(asked - (kept.len() - taken));
        kept.extend_from_slice(&rest[..count])?;
        rest = &rest[count..];
    }
    Ok(rest)
}

/// Drops the taken octets at the front of what is kept. If memory runs out, nothing changes.
fn drop_front(alloc: Global, kept: &mut Vec<u8>, taken: usize) -> Result<(), OutOfMemory>
    requires { taken ≤ length kept.old.items }
    ensures ok { OnOk result (kept.new.items ≡ drop taken kept.old.items) }
    ensures err { OnErr result (kept.new.items ≡ kept.old.items) }
{
    if taken > 0 {
        *kept = Vec::from_slice(alloc, &kept[taken..])?;
    }
    Ok(())
}

/// What is kept of the rest of a piece: nothing after a fault.
fn left<'a>(fault: Option<FileFault>, rest: &'a [u8]) -> &'a [u8]
    ensures { result.now ≡ left fault rest.now }
{
    if fault.is_some() { &[] } else { rest }
}

/// Takes a piece. What is kept goes on with it, and is afterwards what no unit has.
pub fn take_piece<'a>(
    alloc: Global,
    section: &mut Section,
    start: Expected,
    from: u64,
    kept: &mut Vec<u8>,
    piece: &'a [u8],
) -> Result<Progress<'a>, OutOfMemory>
    requires { from + (length kept.old.items + length piece.now) < 2 ^ 64 }
    ensures takes { IfOk result (λ p. TakesPiece (at_of start section.old) from kept.old.items piece.now (map captured p.packets.items)
        (midway (at_of p.expected section.new) p.place kept.new.items p.fault)) }
    ensures stands { IfOk result (λ p. IsStanding (midway (at_of p.expected section.new) p.place kept.new.items p.fault)) }
    ensures err { OnErr result (take (length kept.old.items) kept.new.items ≡ kept.old.items) }
{
    let mut packets = Vec::new(alloc);
    let mut expected = start;
    let mut place = from;
    let mut taken = 0;
    let mut rest = piece;
    'joined: while taken < kept.len() {
        rest = fill(expected, section, place, taken, kept, rest)?;
        match unit(expected, section, place, &kept[taken..]) {
            Reading::Read(read) => {
                put_joined(alloc, &mut packets, read.content)?;
                section.change(alloc, read.change)?;
                expected = read.next;
                place += read.used as u64;
                taken += read.used;
            }
            Reading::Unfinished(_) => {
                drop_front(alloc, kept, taken)?;
                return Ok(Progress {
                    packets,
                    expected,
                    place,
                    rest,
                    fault: None,
                });
            }
            Reading::Refused(fault) => {
                kept.clear();
                return Ok(Progress {
                    packets,
                    expected,
                    place,
                    rest,
                    fault: Some(fault),
                });
            }
        }
    }
    let progress = take_units(alloc, packets, section, expected, place, rest)?;
    *kept = Vec::from_slice(alloc, left(progress.fault, progress.rest))?;
    Ok(progress)
}

/// The fault of a file that ends here, with nothing kept or something.
pub fn ending(expected: Expected, section: &Section, place: u64, nothing: bool) -> Option<FileFault>
    ensures { (kept : List ℕ) → nothing ≡ (length kept == 0) → only result ≡ ending true (at_of expected section.now) place kept }
{
    match expected {
        Expected::Heading => Some(FileFault::Cut(place)),
        Expected::NextRecord(_, _) => cut_unless(nothing, place),
        Expected::NextBlock => cut_unless(nothing, place),
        Expected::BlockRest(_, _, start) => Some(FileFault::Cut(start)),
    }
}

// The file is cut off at that place, unless it may end there.
fn cut_unless(may_end: bool, place: u64) -> Option<FileFault>
    ensures { result ≡ (if may_end then None else Some (FileFault.Cut place)) }
{
    if may_end {
        None
    } else {
        Some(FileFault::Cut(place))
    }
}
