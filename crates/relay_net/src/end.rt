//! The ends of a journey.
use sccp_base::{Boxed, List, Mark, Octets, PointCode};
use sccp_message::{DecodeFault, Message};

/// How a journey ends, at the last node of its path.
#[derive(Drop)]
pub enum End {
    /// The message goes to its destination, at another point.
    Ended {
        pc: PointCode,
        ssn: u8,
        octets: Octets,
    },
    /// It is for a subsystem of the node.
    Local {
        ssn: u8,
        message: Boxed<Message>,
    },
    /// It cannot be delivered, for this return cause, with one mark for each closed target.
    Returned {
        cause: u8,
        marks: List<Mark>,
    },
    /// It is of a connection-oriented type.
    Connection(Boxed<Message>),
    /// It is for SCCP management.
    Management(Boxed<Message>),
    /// The octets are not a message.
    Undecodable(DecodeFault),
    /// Without a hop counter it would need a fifteenth translation.
    Cut,
}
