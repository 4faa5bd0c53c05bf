//! Which messages a coupling takes, and which lengths they keep.
ghost use Rattle.std.specs.Prelude.{◌≡◌, ◌↔◌, true, None};
ghost use Rattle.sccp_message.specs.Reads.{Reads};
ghost use Rattle.sccp_message.specs.Unitdata.{called_of};
ghost use Rattle.sccp_couple.specs.Sending.{HasShortParts};

use sccp_message::Message;

/// Whether a message is connection-oriented: any type but UDT, UDTS, XUDT, XUDTS, LUDT and LUDTS (Q.713 section 4).
pub fn is_connection(message: &Message) -> bool
    ensures { (result ≡ true) ↔ (called_of message.now ≡ None) }
{
    match message.called() {
        Some(_) => false,
        None => true,
    }
}

/// Shows that a connection-oriented message that was read from octets is short, as `Exchange::on` requires. One octet holds
/// the length of its data, and of each of its parameters (Q.713 section 1). The call does nothing at run time.
pub fn vouch_short(octets: &[u8], message: &Message)
    requires reads { Reads octets.now message.now }
    requires kind { called_of message.now ≡ None }
    ensures { HasShortParts message.now }
{}
