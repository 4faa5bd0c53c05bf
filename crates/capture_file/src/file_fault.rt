//! Why a capture file cannot be read to its end.

/// Why a file cannot be read from a place on.
#[derive(Clone, Copy, Debug)]
pub enum Damage {
    /// The file begins with no magic number of a capture file.
    NoCapture,
    /// The file, or a section of it, has a version that is not read. Of pcap only 2.4 is, of pcapng any 1.x.
    Version,
    /// A section has no magic number that shows the order of its numbers.
    OtherOrder,
    /// A record has more captured octets than 262,144, or the length of a block cannot be.
    Length,
    /// The second length of a block differs from its first one.
    End,
    /// A section has more than 4,096 interfaces.
    Interfaces,
}

/// What ends the packets of a file before the file ends. Places are octets from the beginning of the file, from 0.
#[derive(Clone, Copy, Debug)]
pub enum FileFault {
    /// The file ends in the middle of what began at that place.
    Cut(u64),
    /// What is at that place cannot be read, and nothing after it is.
    Damaged(u64, Damage),
}
