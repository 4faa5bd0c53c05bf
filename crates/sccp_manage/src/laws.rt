//! Laws of status messages, over every one of them.
ghost use Rattle.std.specs.Prelude.{◌≡◌, ◌<◌, Some, Ok};
ghost use Rattle.sccp_message.specs.Reading.{reading};
ghost use Rattle.sccp_manage.specs.declared.status.StatusMessage.{StatusMessage};
ghost use Rattle.sccp_manage.specs.Statuses.{status_data, status_octets, status_of, status_unitdata};

/// What is sent reads as a unitdata message from management to management, and its data as the status message that was
/// meant (Q.713 section 5). The second law has as premise that the point code is below 16,384, as that of every `PointCode`
/// is.
pub fn status_messages_are_read()
    ensures unitdata { (s : StatusMessage) → reading (status_octets s) ≡ Ok (status_unitdata s) }
    ensures status { (s : StatusMessage) → s.pc < 16384 → status_of (status_data s) ≡ Some s }
{}
