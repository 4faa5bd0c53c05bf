//! The outcomes of an arrival at a relay.
use crate::service::Service;
use sccp_base::{List, Mark, Octets, PointCode};
use sccp_message::{DecodeFault, Message};

/// What becomes of a message at a relay (Q.714 section 2).
#[derive(Drop)]
pub enum Arrival {
    /// It goes on to the relay with this point code.
    Relayed {
        pc: PointCode,
        octets: Octets,
    },
    /// It goes to its destination, at another point.
    Ended {
        pc: PointCode,
        ssn: u8,
        octets: Octets,
    },
    /// It is for a subsystem of the node.
    Local {
        ssn: u8,
        message: Message,
    },
    /// It cannot be delivered. The cause is a return cause: 0 no translation for an address of such nature, 1 no translation
    /// for this address, 3 subsystem failure, 4 unequipped user, 5 MTP failure, 9 error in local processing, 11 SCCP
    /// failure, 12 hop counter violation. There is one mark for each target that is closed.
    Returned {
        cause: u8,
        marks: List<Mark>,
        service: Option<Service>,
    },
    /// It is of a connection-oriented type.
    Connection(Message),
    /// It is for SCCP management, subsystem number 1.
    Management(Message),
    /// The octets are not a message.
    Undecodable(DecodeFault),
}
