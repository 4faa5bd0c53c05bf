//! The units of a capture file.
ghost use Rattle.std.specs.Prelude.{◌≡◌, ◌≤◌, ◌<◌, length};
ghost use Rattle.capture_file.specs.Units.{start_by, kind_of, Rest};
ghost use Rattle.capture_file.specs.Steps.{step_at};
ghost use Rattle.capture_file.specs.Views.{at_of, step_of, IsProgress};
ghost use Rattle.capture_file.specs.declared.section.Section.{Section};

use crate::blocks::{block, rest, section};
use crate::expected::Expected;
use crate::file_fault::{Damage, FileFault};
use crate::file_kind::{FileKind, kind_of};
use crate::records::{heading, record};
use crate::section::Section;
use crate::step::{Change, Content, Reading, UnitRead};

// The beginning of a file, of which four octets are there.
fn start(place: u64, octets: &[u8]) -> Reading<'_>
    requires { 4 ≤ length octets.now }
    ensures exact { (s : Section) → step_of result s ≡ start_by (kind_of octets.now) place octets.now }
    ensures progress { IsProgress result (length octets.now) }
{
    match kind_of(octets) {
        FileKind::Pcap(order) => heading(order, place, octets),
        FileKind::Pcapng => section(place, octets),
        FileKind::Unknown => Reading::Refused(FileFault::Damaged(place, Damage::NoCapture)),
    }
}

// The rest of a block: as much of it is passed over as is there.
#[tactic(auto, unfolding(crate::specs::Steps::step_at, crate::specs::Units::unit))]
fn block_rest<'a>(
    at: &Section,
    left: u32,
    size: u32,
    begin: u64,
    place: u64,
    octets: &'a [u8],
) -> Reading<'a>
    ensures exact { step_of result at.now ≡ step_at (Rest at.now left size begin) place octets.now }
    ensures progress { IsProgress result (length octets.now) }
{
    let arrived = octets.len().min(left as usize);
    if arrived > 0 {
        return Reading::Read(UnitRead {
            content: Content::NoPacket,
            used: arrived,
            change: Change::Stays,
            next: Expected::BlockRest(left - arrived as u32, size, begin),
        });
    }
    if left > 0 {
        return Reading::Unfinished(1);
    }
    rest(at, size, begin, octets)
}

/// What is taken next of these octets, which begin at that place of the file.
#[tactic(auto, unfolding(crate::specs::Steps::step_at, crate::specs::Units::unit))]
pub fn unit<'a>(expected: Expected, at: &Section, place: u64, octets: &'a [u8]) -> Reading<'a>
    ensures exact { step_of result at.now ≡ step_at (at_of expected at.now) place octets.now }
    ensures progress { IsProgress result (length octets.now) }
{
    match expected {
        Expected::Heading => {
            if octets.len() < 4 {
                return Reading::Unfinished(4);
            }
            start(place, octets)
        }
        Expected::NextRecord(order, link) => record(order, link, place, octets),
        Expected::NextBlock => block(at, place, octets),
        Expected::BlockRest(left, size, begin) => block_rest(at, left, size, begin, place, octets),
    }
}
