//! The units of a pcap file: its heading and its records (draft-ietf-opsawg-pcap, sections 4 and 5).
ghost use Rattle.std.specs.Prelude.{◌≡◌, ◌<◌, ◌≤◌, ◌+◌, length};
ghost use Rattle.capture_file.specs.Units.{heading_at, record_at, packet_at};
ghost use Rattle.capture_file.specs.Views.{step_of, IsProgress};
ghost use Rattle.capture_file.specs.declared.section.Section.{Section};

use crate::expected::Expected;
use crate::file_fault::{Damage, FileFault};
use crate::numbers::{number_2, number_4};
use crate::order::Order;
use crate::step::{Change, Content, Reading, UnitRead};

/// The most octets of a packet.
pub const MOST: u32 = 262_144;

/// The heading of a pcap file.
pub fn heading(order: Order, place: u64, octets: &[u8]) -> Reading<'_>
    ensures exact { (s : Section) → step_of result s ≡ heading_at order place octets.now }
    ensures progress { IsProgress result (length octets.now) }
{
    if octets.len() < 24 {
        return Reading::Unfinished(24);
    }
    if number_2(order, octets, 4) == 2 && number_2(order, octets, 6) == 4 {
        Reading::Read(UnitRead {
            content: Content::NoPacket,
            used: 24,
            change: Change::Stays,
            next: Expected::NextRecord(order, (number_4(order, octets, 20) % 65536) as u16),
        })
    } else {
        Reading::Refused(FileFault::Damaged(place, Damage::Version))
    }
}

// A record of which so many octets were captured.
fn packet(order: Order, link: u16, captured: usize, octets: &[u8]) -> Reading<'_>
    requires record { 16 ≤ length octets.now }
    requires short { captured ≤ 262144 }
    ensures exact { (s : Section) → step_of result s ≡ packet_at order link captured octets.now }
    ensures progress { IsProgress result (length octets.now) }
{
    if octets.len() < 16 + captured {
        return Reading::Unfinished(16 + captured);
    }
    Reading::Read(UnitRead {
        content: Content::Whole(
            link,
            number_4(order, octets, 12),
            &octets[16..16 + captured],
        ),
        used: 16 + captured,
        change: Change::Stays,
        next: Expected::NextRecord(order, link),
    })
}

/// A record of a pcap file.
pub fn record(order: Order, link: u16, place: u64, octets: &[u8]) -> Reading<'_>
    ensures exact { (s : Section) → step_of result s ≡ record_at order link place octets.now }
    ensures progress { IsProgress result (length octets.now) }
{
    if octets.len() < 16 {
        return Reading::Unfinished(16);
    }
    let captured = number_4(order, octets, 8);
    if captured > MOST {
        return Reading::Refused(FileFault::Damaged(place, Damage::Length));
    }
    packet(order, link, captured as usize, octets)
}
