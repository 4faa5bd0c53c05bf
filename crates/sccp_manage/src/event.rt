//! The events at the SCCP management of a node.
use sccp_base::{Octets, PointCode};

/// What happens at the SCCP management of a node (Q.714 section 5). Other nodes, the MTP, the node's own subsystems and its
/// clock report it.
#[derive(Drop)]
pub enum Event {
    /// The data of a connectionless message for SCCP management, and the point from which it arrived.
    Status { from: PointCode, payload: Octets },
    /// A message from a point for a subsystem of the node that is prohibited.
    Knock { from: PointCode, ssn: u8 },
    /// The point cannot be reached (MTP-PAUSE).
    Pause(PointCode),
    /// The point can be reached again (MTP-RESUME).
    Resume(PointCode),
    /// The point can be reached, but has no SCCP at present (MTP-STATUS, user part unavailable).
    NoSccp(PointCode),
    /// A subsystem of the node is in service (N-STATE).
    Up(u8),
    /// A subsystem of the node is out of service (N-STATE).
    Down(u8),
    /// Time to test what is prohibited.
    Tick,
}
