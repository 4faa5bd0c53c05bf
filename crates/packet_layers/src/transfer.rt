//! What MTP hands to its user.

/// What MTP hands to its user: the point codes of the routing label, 14 bits each, the service indicator (3 is SCCP), and
/// the user's octets (Q.704, sections 2.2 and 14.2).
#[derive(Clone, Copy)]
pub struct Transfer<'a> {
    pub origin: u16,
    pub destination: u16,
    pub service: u8,
    pub payload: &'a [u8],
}
