//! What is asked for: one connection.
use sccp_base::{Digits, Octets, PointCode, Selector};

/// A connection that an end asks for, and what it is to carry.
#[derive(Drop)]
pub struct Call {
    /// The point of the end that requests the connection.
    pub from: PointCode,
    /// The point of the relay that it sends the request to.
    pub entry: PointCode,
    /// The called title: its selector, and its digits. A title of kind 2 has an even number of digits.
    pub selector: Selector,
    pub digits: Digits,
    /// The called subsystem number, if there is one.
    pub ssn: Option<u8>,
    /// What is sent over the connection, one octet in each data message (DT1).
    pub octets: Octets,
}
