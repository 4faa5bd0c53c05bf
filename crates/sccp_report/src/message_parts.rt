//! The parts of a message that a replay looks at.
ghost use Rattle.std.specs.Prelude.{◌≡◌};
ghost use Rattle.std.specs.Option.{option_copied};
ghost use Rattle.sccp_report.specs.Roles.{management_data};

use sccp_base::Octets;
use sccp_message::Message;

/// The data of a message for management, if they can be a status message. A service message has none that count.
pub fn management_data(message: &Message) -> Option<&Octets>
    ensures { option_copied result ≡ management_data message.now }
{
    match message {
        Message::Udt { payload, .. }
        | Message::Xudt { payload, .. }
        | Message::Ludt { payload, .. } => Some(payload),
        _ => None,
    }
}
