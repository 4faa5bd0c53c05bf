//! Why a packet is not read.
use crate::layer::Layer;

/// Why a packet is not read.
#[derive(Clone, Copy)]
pub enum Fault {
    /// Packets of this link type are not read.
    Link(u16),
    /// The captured octets end within the header of this layer, or within a message of MTP or SCCP.
    Short(Layer),
    /// The version, the header length or the total length of IP is impossible; or the version, the class or the length of
    /// M2PA.
    Bad(Layer),
    /// It is a fragment of an IP packet that carries SCTP.
    Fragment,
}
