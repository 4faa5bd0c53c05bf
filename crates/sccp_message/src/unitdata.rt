//! The fields of connectionless messages, whatever their type.
ghost use Rattle.std.specs.Prelude.{◌≡◌};
ghost use Rattle.std.specs.Option.{option_copied};
ghost use Rattle.sccp_message.specs.Unitdata.{called_of, hops_of, payload_of, is_connectionless};

use crate::message::Message;
use sccp_address::Address;
use sccp_base::Octets;

impl Message {
    /// The called address of a connectionless message (Q.713 section 3.4).
    pub fn called(&self) -> Option<&Address>
        ensures { option_copied result ≡ called_of self.now }
    {
        match self {
            Message::Udt { called, .. }
            | Message::Udts { called, .. }
            | Message::Xudt { called, .. }
            | Message::Xudts { called, .. }
            | Message::Ludt { called, .. }
            | Message::Ludts { called, .. } => Some(called),
            _ => None,
        }
    }

    /// The hop counter of an XUDT, XUDTS, LUDT or LUDTS (Q.713 section 3.18).
    pub fn hops(&self) -> Option<u8>
        ensures { result ≡ hops_of self.now }
    {
        match self {
            Message::Xudt { hops, .. }
            | Message::Xudts { hops, .. }
            | Message::Ludt { hops, .. }
            | Message::Ludts { hops, .. } => Some(*hops),
            _ => None,
        }
    }

    /// The data of a message of one of the nine types that have some (Q.713 sections 3.16 and 3.20).
    pub fn payload(&self) -> Option<&Octets>
        ensures { option_copied result ≡ payload_of self.now }
    {
        match self {
            Message::Dt1 { payload, .. }
            | Message::Dt2 { payload, .. }
            | Message::Udt { payload, .. }
            | Message::Udts { payload, .. }
            | Message::Ed { payload, .. }
            | Message::Xudt { payload, .. }
            | Message::Xudts { payload, .. }
            | Message::Ludt { payload, .. }
            | Message::Ludts { payload, .. } => Some(payload),
            _ => None,
        }
    }

    /// Whether a message is of one of the six connectionless types (Q.713 sections 4.10, 4.11 and 4.18 to 4.21).
    pub fn is_connectionless(&self) -> bool
        ensures { result ≡ is_connectionless self.now }
    {
        match self.called() {
            Some(_) => true,
            None => false,
        }
    }
}
