//! The packets of a capture file.
ghost use Rattle.std.specs.Prelude.{◌≡◌};
ghost use Rattle.capture_file.specs.Views.{octets_of};

/// Why a block of a pcapng file has no packet.
#[derive(Clone, Copy, Debug)]
pub enum BadPacket {
    /// The block names no interface of its section.
    NoInterface,
    /// The block has fewer octets than its captured length says.
    BadLength,
    /// The captured length is above 262,144.
    TooLong,
}

/// The octets of a packet: lent from the piece that has all of them, or joined from several pieces.
#[derive(Drop)]
pub enum PacketOctets<'a> {
    Lent(&'a [u8]),
    Joined(Vec<u8>),
}

impl<'a> PacketOctets<'a> {
    /// The octets, in their order.
    pub fn as_slice(&self) -> &[u8]
        ensures { result.now ≡ octets_of self.now }
    {
        match self {
            PacketOctets::Lent(octets) => octets,
            PacketOctets::Joined(octets) => octets.as_slice(),
        }
    }
}

/// A captured packet.
#[derive(Drop)]
pub struct Packet<'a> {
    /// The link type, as the list of link types of tcpdump has it.
    pub link: u16,
    /// How many octets the packet had before it was captured.
    pub original: u32,
    /// The octets that were captured.
    pub octets: PacketOctets<'a>,
}

/// A packet, or why a block that should have one has none. Both count in the numbers of packets.
#[derive(Drop)]
pub enum Held<'a> {
    OfPacket(Packet<'a>),
    OfBad(BadPacket),
}
