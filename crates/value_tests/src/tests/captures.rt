//! Capture files, fed in pieces.
ghost use Rattle.std.specs.Prelude.{◌<◌};

use capture_file::{FileFault, Held, Reader};
use std::alloc::Global;
use std::test::Fail;

/// The octets of the packet of both files: a message of MTP3 from 1-0-1 to 1-0-2.
const OCTETS: &[u8] = b"\x83\x02\x48\x00\x52\x09\x00\x03\x05\x07\x02\x42\x06\x02\x42\x08\x01\xAA";

/// A pcap file of that packet, least significant octets first.
const PCAP: &[u8] =
    b"\xD4\xC3\xB2\xA1\x02\x00\x04\x00\x00\x00\x00\x00\x00\x00\x00\x00\x00\x00\x04\x00\x8D\x00\x00\x00\
\x00\xF1\x53\x65\x00\x00\x00\x00\x12\x00\x00\x00\x12\x00\x00\x00\
\x83\x02\x48\x00\x52\x09\x00\x03\x05\x07\x02\x42\x06\x02\x42\x08\x01\xAA";

/// A pcapng file of that packet, most significant octets first: a section, an interface, and an enhanced packet block.
const PCAPNG: &[u8] =
    b"\x0A\x0D\x0D\x0A\x00\x00\x00\x1C\x1A\x2B\x3C\x4D\x00\x01\x00\x00\xFF\xFF\xFF\xFF\xFF\xFF\xFF\xFF\x00\x00\x00\x1C\
\x00\x00\x00\x01\x00\x00\x00\x14\x00\x8D\x00\x00\x00\x00\x00\x00\x00\x00\x00\x14\
\x00\x00\x00\x06\x00\x00\x00\x34\x00\x00\x00\x00\x00\x06\x00\x00\x00\x00\x10\x00\x00\x00\x00\x12\x00\x00\x00\x12\
\x83\x02\x48\x00\x52\x09\x00\x03\x05\x07\x02\x42\x06\x02\x42\x08\x01\xAA\x00\x00\x00\x00\x00\x34";

/// Whether this is the packet.
fn is_packet(held: &Held) -> bool {
    match held {
        Held::OfPacket(packet) => {
            packet.link == 141 && packet.original == 18 && packet.octets.as_slice() == OCTETS
        }
        Held::OfBad(_) => false,
    }
}

/// How many packets a piece gives, if each is the packet and there is no fault.
fn fed(reader: &mut Reader, piece: &[u8]) -> Result<Option<usize>, Fail> {
    let fed = reader.feed(piece)?;
    let packets = fed.packets.as_slice();
    if fed.fault.is_none() && packets.iter().all(|held| is_packet(held)) {
        Ok(Some(packets.len()))
    } else {
        Ok(None)
    }
}

/// Appends what each piece of a file gives.
fn feed_all(
    reader: &mut Reader,
    given: &mut Vec<Option<usize>>,
    file: &[u8],
    piece: usize,
) -> Result<(), Fail>
    requires { 0 < piece }
{
    for part in file.chunks(piece) {
        given.push(fed(reader, part)?)?;
    }
    Ok(())
}

/// What each piece of a file gives, and the fault of its end.
fn read(
    alloc: Global,
    file: &[u8],
    piece: usize,
) -> Result<(Vec<Option<usize>>, Option<FileFault>), Fail>
    requires { 0 < piece }
{
    let mut reader = Reader::new(alloc);
    let mut given = Vec::new(alloc);
    let fed = feed_all(&mut reader, &mut given, file, piece);
    let fault = reader.finish();
    drop(reader);
    fed?;
    Ok((given, fault))
}

/// Whether a file gives the packet once, and is whole.
fn is_read(alloc: Global, file: &[u8], piece: usize) -> Result<bool, Fail>
    requires { 0 < piece }
{
    let (given, fault) = read(alloc, file, piece)?;
    let once = given.iter().filter(|count| **count == Some(1)).count() == 1;
    let rest = given
        .iter()
        .all(|count| *count == Some(1) || *count == Some(0));
    Ok(once && rest && fault.is_none())
}

#[test]
fn any_cutting_gives_the_same_packet(rt: HostRuntime) -> Result<(), Fail> {
    for piece in [1, 5, 11, 4096] {
        assert!(rt; is_read(rt.alloc(), PCAP, piece)?);
        assert!(rt; is_read(rt.alloc(), PCAPNG, piece)?);
    }
    Ok(())
}

/// The place at which a file is cut off, if it is.
fn cut_at(alloc: Global, file: &[u8]) -> Result<Option<u64>, Fail> {
    let (_given, fault) = read(alloc, file, 4096)?;
    match fault {
        Some(FileFault::Cut(place)) => Ok(Some(place)),
        _ => Ok(None),
    }
}

#[test]
fn a_file_is_cut_off_where_its_last_unit_begins(rt: HostRuntime) -> Result<(), Fail> {
    assert!(rt; cut_at(rt.alloc(), &PCAP[..57])? == Some(24));
    assert!(rt; cut_at(rt.alloc(), &PCAPNG[..99])? == Some(48));
    assert!(rt; cut_at(rt.alloc(), PCAP)?.is_none());
    Ok(())
}
