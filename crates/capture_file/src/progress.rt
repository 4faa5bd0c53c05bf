//! How far a reader has come in a piece of a capture file.
ghost use Rattle.std.specs.Prelude.{◌≡◌, ◌++◌, map, OnOk};
ghost use Rattle.capture_file.specs.Views.{captured, content_of};

use crate::expected::Expected;
use crate::file_fault::FileFault;
use crate::held::{Held, Packet, PacketOctets};
use crate::step::Content;
use sccp_base::OutOfMemory;
use std::alloc::Global;

/// The packets so far, what is read next and its place in the file, and the octets of the piece from there on. A fault ends
/// the reading.
#[derive(Drop)]
pub struct Progress<'a> {
    pub packets: Vec<Held<'a>>,
    pub expected: Expected,
    pub place: u64,
    pub rest: &'a [u8],
    pub fault: Option<FileFault>,
}

/// Puts the packet of a unit at the end, if it has one. Its octets are lent.
pub fn put_lent<'a>(packets: &mut Vec<Held<'a>>, content: Content<'a>) -> Result<(), OutOfMemory>
    ensures { OnOk result (map captured packets.new.items ≡ map captured packets.old.items ++ content_of content.entry) }
{
    match content {
        Content::NoPacket => {}
        Content::Whole(link, original, octets) => {
            packets.push(Held::OfPacket(Packet {
                link,
                original,
                octets: PacketOctets::Lent(octets),
            }))?;
        }
        Content::Missing(why) => packets.push(Held::OfBad(why))?,
    }
    Ok(())
}

/// Puts the packet of a unit at the end, if it has one. Its octets are copied.
pub fn put_joined<'a>(
    alloc: Global,
    packets: &mut Vec<Held<'a>>,
    content: Content<'_>,
) -> Result<(), OutOfMemory>
    ensures { OnOk result (map captured packets.new.items ≡ map captured packets.old.items ++ content_of content.entry) }
{
    match content {
        Content::NoPacket => {}
        Content::Whole(link, original, octets) => {
            let copy = Vec::from_slice(alloc, octets)?;
            packets.push(Held::OfPacket(Packet {
                link,
                original,
                octets: PacketOctets::Joined(copy),
            }))?;
        }
        Content::Missing(why) => packets.push(Held::OfBad(why))?,
    }
    Ok(())
}
