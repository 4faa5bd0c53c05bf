//! Whether a file is a capture.
ghost use Rattle.std.specs.Prelude.{◌≡◌};
ghost use Rattle.watch_items.specs.Front.{is_capture};

// The magic numbers of pcap, with times in microseconds and in nanoseconds, and the type of a section header block of pcapng, which is
// the same in either order of octets.
const MICROSECONDS: u32 = 0xA1B2_C3D4;

const NANOSECONDS: u32 = 0xA1B2_3C4D;

const SECTION_HEADER: u32 = 0x0A0D_0D0A;

/// Whether a file that begins with these octets is a capture, pcap or pcapng (draft-ietf-opsawg-pcap, draft-ietf-opsawg-pcapng). Its
/// first four octets say it, and no text of hexadecimal digits has them.
pub fn is_capture(octets: &[u8]) -> bool
    ensures { result ≡ is_capture octets.now }
{
    if octets.len() < 4 {
        return false;
    }
    let four = [octets[0], octets[1], octets[2], octets[3]];
    let big = u32::from_be_bytes(four);
    if big == MICROSECONDS || big == NANOSECONDS {
        return true;
    }
    let little = u32::from_le_bytes(four);
    if little == MICROSECONDS || little == NANOSECONDS {
        return true;
    }
    big == SECTION_HEADER
}
