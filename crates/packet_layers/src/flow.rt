//! One direction of an SCTP association.

/// One direction of an SCTP association: source port, destination port and verification tag (RFC 9260, section 3.1). The
/// addresses do not count, since an end may have several.
#[derive(Clone, Copy)]
pub struct Flow {
    pub source: u16,
    pub destination: u16,
    pub tag: u32,
}
