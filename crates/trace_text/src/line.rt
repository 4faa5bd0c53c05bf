//! The lines of a trace as values.
use sccp_base::{Name, Octets, PointCode};

/// A line of a trace.
#[derive(Drop)]
pub enum Line {
    /// `msg NODE POINT HEX`: octets that arrive at the node from that point, and should be a message of SCCP.
    Msg {
        node: Name,
        origin: PointCode,
        octets: Octets,
    },
    /// `pause NODE POINT`: the node can no longer reach the point (MTP-PAUSE).
    Pause(Name, PointCode),
    /// `resume NODE POINT`: the node can reach the point again (MTP-RESUME).
    Resume(Name, PointCode),
    /// `no-sccp NODE POINT`: the node cannot use the SCCP of the point (MTP-STATUS, user part unavailable).
    NoSccp(Name, PointCode),
    /// `up NODE SSN`: the node's own subsystem goes into service.
    Up(Name, u8),
    /// `down NODE SSN`: the node's own subsystem goes out of service.
    Down(Name, u8),
    /// `tick NODE`: it is time for the node's subsystem status tests (Q.714 section 5).
    Tick(Name),
    /// `plan FILE`: the plan of that file takes over if it is accepted.
    Plan(Octets),
    /// `fence`: all lines before it are done before any line after it begins.
    Fence,
    /// An empty line, or one that begins with `#`.
    Skip,
}

/// A line and its number, from 1.
#[derive(Drop)]
pub struct Numbered {
    pub number: u32,
    pub line: Line,
}
