//! The layers of a packet.

/// A layer whose header or message is read.
#[derive(Clone, Copy)]
pub enum Layer {
    /// Ethernet, and a tag of a virtual network after any link.
    Ethernet,
    /// A Linux cooked capture.
    Cooked,
    /// BSD loopback.
    Loopback,
    /// IPv4, and raw IP of either version.
    Ip,
    Ipv6,
    Sctp,
    M2pa,
    Mtp2,
    Mtp3,
    Sccp,
}
