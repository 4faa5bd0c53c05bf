//! The blocks of a pcapng file (draft-ietf-opsawg-pcapng, sections 3.1, 4.1 to 4.4 and A).
ghost use Rattle.std.specs.Prelude.{◌≡◌, ◌<◌, ◌≤◌, ◌+◌, ◌-◌, ◌^◌, ℕ, length};
ghost use Rattle.capture_file.specs.Units.{
  order_of,
  section_in,
  section_at,
  least,
  rest_after,
  packet_in,
  interface_in,
  enhanced_in,
  simple_captured,
  simple_in,
  sized_in,
  kind_in,
  block_by,
  block_at,
  rest_at,
};
ghost use Rattle.capture_file.specs.Views.{step_of, content_of, changed, IsProgress};
ghost use Rattle.capture_file.specs.declared.section.Section.{Section};

use crate::expected::Expected;
use crate::file_fault::{Damage, FileFault};
use crate::file_kind::{FileKind, kind_of};
use crate::held::BadPacket;
use crate::numbers::{number_2, number_4};
use crate::order::Order;
use crate::records::MOST;
use crate::section::Section;
use crate::step::{Change, Content, Reading, UnitRead};

/// The magic number of a section, which shows the order of its numbers.
const MAGIC: u32 = 0x1A2B_3C4D;

/// The most interfaces of a section.
const MOST_INTERFACES: usize = 4096;

// The types of blocks that are read.
const INTERFACE: u32 = 1;

const OLD_PACKET: u32 = 2;

const SIMPLE_PACKET: u32 = 3;

const ENHANCED_PACKET: u32 = 6;

// The order of the numbers of a section.
fn order_of(octets: &[u8]) -> Option<Order>
    requires { 12 ≤ length octets.now }
    ensures { result ≡ order_of octets.now }
{
    if number_4(Order::Big, octets, 8) == MAGIC {
        return Some(Order::Big);
    }
    if number_4(Order::Little, octets, 8) == MAGIC {
        return Some(Order::Little);
    }
    None
}

// A section header block, of which the order is known.
fn section_in(order: Order, place: u64, octets: &[u8]) -> Reading<'_>
    requires { 12 ≤ length octets.now }
    ensures exact { (s : Section) → step_of result s ≡ section_in order place octets.now }
    ensures progress { IsProgress result (length octets.now) }
{
    let size = number_4(order, octets, 4);
    if size % 4 != 0 {
        return Reading::Refused(FileFault::Damaged(place, Damage::Length));
    }
    if size < 28 {
        return Reading::Refused(FileFault::Damaged(place, Damage::Length));
    }
    if octets.len() < 16 {
        return Reading::Unfinished(16);
    }
    if number_2(order, octets, 12) != 1 {
        return Reading::Refused(FileFault::Damaged(place, Damage::Version));
    }
    Reading::Read(UnitRead {
        content: Content::NoPacket,
        used: 16,
        change: Change::NewSection(order),
        next: Expected::BlockRest(size - 20, size, place),
    })
}

/// A section header block.
pub fn section(place: u64, octets: &[u8]) -> Reading<'_>
    ensures exact { (s : Section) → step_of result s ≡ section_at place octets.now }
    ensures progress { IsProgress result (length octets.now) }
{
    if octets.len() < 12 {
        return Reading::Unfinished(12);
    }
    match order_of(octets) {
        Some(order) => section_in(order, place, octets),
        None => Reading::Refused(FileFault::Damaged(place, Damage::OtherOrder)),
    }
}

// The least length of a block of a kind.
fn least(kind: u32) -> u32
    ensures exact { result ≡ least kind }
{
    if kind == INTERFACE {
        return 20;
    }
    if kind == OLD_PACKET || kind == ENHANCED_PACKET {
        return 32;
    }
    if kind == SIMPLE_PACKET { 16 } else { 12 }
}

// So many octets of a block were taken.
fn rest_after<'a>(
    place: u64,
    size: u32,
    content: Content<'a>,
    change: Change,
    used: usize,
) -> Reading<'a>
    requires some { 0 < used }
    requires inside { used + 4 ≤ size }
    ensures exact { (s : Section) → step_of result s ≡ rest_after (changed change s) place size (content_of content.entry) used }
    ensures progress { (octets : ℕ) → used ≤ octets → IsProgress result octets }
{
    Reading::Read(UnitRead {
        content,
        used,
        change,
        next: Expected::BlockRest(size - 4 - used as u32, size, place),
    })
}

// What a block with a packet says of it: its interface, its captured and its original length.
#[derive(Clone, Copy)]
struct Lengths {
    interface: u32,
    captured: u32,
    original: u32,
}

// The packet of a block, whose octets begin so many octets after the beginning of the block.
fn packet_in<'a>(
    section: &Section,
    place: u64,
    size: u32,
    start: usize,
    lengths: Lengths,
    octets: &'a [u8],
) -> Reading<'a>
    requires some { 0 < start }
    requires few { start ≤ 28 }
    requires inside { start + 4 ≤ size }
    requires there { start ≤ length octets.now }
    ensures exact { step_of result section.now
        ≡ packet_in section.now place size start lengths.interface lengths.captured lengths.original octets.now }
    ensures progress { IsProgress result (length octets.now) }
{
    let links = section.links.as_slice();
    let interface = lengths.interface as usize;
    if links.len() <= interface {
        return rest_after(
            place,
            size,
            Content::Missing(BadPacket::NoInterface),
            Change::Stays,
            start,
        );
    }
    if lengths.captured > size - 4 - start as u32 {
        return rest_after(
            place,
            size,
            Content::Missing(BadPacket::BadLength),
            Change::Stays,
            start,
        );
    }
    if lengths.captured > MOST {
        return rest_after(
            place,
            size,
            Content::Missing(BadPacket::TooLong),
            Change::Stays,
            start,
        );
    }
    let end = start + lengths.captured as usize;
    if octets.len() < end {
        return Reading::Unfinished(end);
    }
    let content = Content::Whole(links[interface], lengths.original, &octets[start..end]);
    rest_after(place, size, content, Change::Stays, end)
}

// An interface description block.
fn interface_in<'a>(section: &Section, place: u64, size: u32, octets: &'a [u8]) -> Reading<'a>
    requires long { 20 ≤ size }
    requires there { 12 ≤ length octets.now }
    ensures exact { step_of result section.now ≡ interface_in section.now place size octets.now }
    ensures progress { IsProgress result (length octets.now) }
{
    if octets.len() < 16 {
        return Reading::Unfinished(16);
    }
    if section.links.as_slice().len() == MOST_INTERFACES {
        return Reading::Refused(FileFault::Damaged(place, Damage::Interfaces));
    }
    let order = section.order;
    let change = Change::NewInterface(number_2(order, octets, 8), number_4(order, octets, 12));
    rest_after(place, size, Content::NoPacket, change, 16)
}

// An enhanced or old packet block, which says its interface.
fn enhanced_in<'a>(
    section: &Section,
    place: u64,
    size: u32,
    interface: u32,
    octets: &'a [u8],
) -> Reading<'a>
    requires long { 32 ≤ size }
    requires there { 12 ≤ length octets.now }
    ensures exact { step_of result section.now ≡ enhanced_in section.now place size interface octets.now }
    ensures progress { IsProgress result (length octets.now) }
{
    if octets.len() < 28 {
        return Reading::Unfinished(28);
    }
    let lengths = Lengths {
        interface,
        captured: number_4(section.order, octets, 20),
        original: number_4(section.order, octets, 24),
    };
    packet_in(section, place, size, 28, lengths, octets)
}

// How many octets of a simple packet were captured.
fn simple_captured(snap: u32, original: u32) -> u32
    ensures { result ≡ simple_captured snap original }
{
    if snap == 0 {
        original
    } else {
        original.min(snap)
    }
}

// A simple packet block, whose interface is the first one.
fn simple_in<'a>(section: &Section, place: u64, size: u32, octets: &'a [u8]) -> Reading<'a>
    requires long { 16 ≤ size }
    requires there { 12 ≤ length octets.now }
    ensures exact { step_of result section.now ≡ simple_in section.now place size octets.now }
    ensures progress { IsProgress result (length octets.now) }
{
    let original = number_4(section.order, octets, 8);
    let lengths = Lengths {
        interface: 0,
        captured: simple_captured(section.snap, original),
        original,
    };
    packet_in(section, place, size, 12, lengths, octets)
}

// A block of that kind and length.
fn sized_in<'a>(
    section: &Section,
    place: u64,
    kind: u32,
    size: u32,
    octets: &'a [u8],
) -> Reading<'a>
    requires long { least kind ≤ size }
    requires there { 12 ≤ length octets.now }
    ensures exact { step_of result section.now ≡ sized_in section.now place kind size octets.now }
    ensures progress { IsProgress result (length octets.now) }
{
    if kind == INTERFACE {
        return interface_in(section, place, size, octets);
    }
    if kind == ENHANCED_PACKET {
        return enhanced_in(
            section,
            place,
            size,
            number_4(section.order, octets, 8),
            octets,
        );
    }
    if kind == OLD_PACKET {
        return enhanced_in(
            section,
            place,
            size,
            u32::from(number_2(section.order, octets, 8)),
            octets,
        );
    }
    if kind == SIMPLE_PACKET {
        return simple_in(section, place, size, octets);
    }
    rest_after(place, size, Content::NoPacket, Change::Stays, 8)
}

// A block of that kind, whose length may be wrong.
fn kind_in<'a>(section: &Section, place: u64, kind: u32, size: u32, octets: &'a [u8]) -> Reading<'a>
    requires { 12 ≤ length octets.now }
    ensures exact { step_of result section.now ≡ kind_in section.now place kind size octets.now }
    ensures progress { IsProgress result (length octets.now) }
{
    if size % 4 != 0 {
        return Reading::Refused(FileFault::Damaged(place, Damage::Length));
    }
    if size < least(kind) {
        return Reading::Refused(FileFault::Damaged(place, Damage::Length));
    }
    sized_in(section, place, kind, size, octets)
}

/// A block of a pcapng file, up to the octets of its packet.
pub fn block<'a>(at: &Section, place: u64, octets: &'a [u8]) -> Reading<'a>
    ensures exact { step_of result at.now ≡ block_at at.now place octets.now }
    ensures progress { IsProgress result (length octets.now) }
{
    if octets.len() < 12 {
        return Reading::Unfinished(12);
    }
    match kind_of(octets) {
        FileKind::Pcapng => section(place, octets),
        FileKind::Pcap(_) => kind_in(
            at,
            place,
            number_4(at.order, octets, 0),
            number_4(at.order, octets, 4),
            octets,
        ),
        FileKind::Unknown => kind_in(
            at,
            place,
            number_4(at.order, octets, 0),
            number_4(at.order, octets, 4),
            octets,
        ),
    }
}

/// The rest of a block, if no octet is passed over.
pub fn rest<'a>(at: &Section, size: u32, start: u64, octets: &'a [u8]) -> Reading<'a>
    ensures exact { step_of result at.now ≡ rest_at at.now 0 size start octets.now }
    ensures progress { IsProgress result (length octets.now) }
{
    if octets.len() < 4 {
        return Reading::Unfinished(4);
    }
    if number_4(at.order, octets, 0) == size {
        Reading::Read(UnitRead {
            content: Content::NoPacket,
            used: 4,
            change: Change::Stays,
            next: Expected::NextBlock,
        })
    } else {
        Reading::Refused(FileFault::Damaged(start, Damage::End))
    }
}
