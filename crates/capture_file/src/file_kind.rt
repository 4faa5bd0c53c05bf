//! The kind of a capture file.
ghost use Rattle.std.specs.Prelude.{◌≡◌, ◌≤◌, length};
ghost use Rattle.capture_file.specs.Units.{kind_of};

use crate::numbers::number_4;
use crate::order::Order;

// The magic numbers of pcap, with times in microseconds and in nanoseconds, and the type of a section header block, which
// is the same in either order.
const MICROSECONDS: u32 = 0xA1B2_C3D4;

const NANOSECONDS: u32 = 0xA1B2_3C4D;

const SECTION_HEADER: u32 = 0x0A0D_0D0A;

/// The kind of a file, with the order of the numbers of a pcap file.
#[derive(Clone, Copy)]
pub enum FileKind {
    Pcap(Order),
    Pcapng,
    Unknown,
}

/// The kind of a file, by its first four octets.
pub fn kind_of(octets: &[u8]) -> FileKind
    requires { 4 ≤ length octets.now }
    ensures { result ≡ kind_of octets.now }
{
    let big = number_4(Order::Big, octets, 0);
    if big == MICROSECONDS || big == NANOSECONDS {
        return FileKind::Pcap(Order::Big);
    }
    let little = number_4(Order::Little, octets, 0);
    if little == MICROSECONDS || little == NANOSECONDS {
        return FileKind::Pcap(Order::Little);
    }
    if big == SECTION_HEADER {
        FileKind::Pcapng
    } else {
        FileKind::Unknown
    }
}
