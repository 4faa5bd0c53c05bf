//! What is written for a message is read as that message.
ghost use Rattle.std.specs.Prelude.{◌≡◌, ◌↔◌, Ok};
ghost use Rattle.sccp_message.specs.declared.message.Message.{Message};
ghost use Rattle.sccp_message.specs.Reading.{reading};
ghost use Rattle.sccp_message.specs.Reads.{Reads};
ghost use Rattle.sccp_message.specs.Written.{IsMessage, Sound, message_octets};

/// What is written for a sound message is read as that message. The call does nothing; its contract says so.
pub fn written_reads()
    ensures reads { (m : Message) → IsMessage m → Sound m → Reads (message_octets m) m }
    ensures exact { (m : Message) → IsMessage m → Sound m → reading (message_octets m) ≡ Ok m }
{}

/// Two sound messages are equal exactly if their written octets are. The call does nothing; its contract says so.
pub fn equal_by_octets()
    ensures { (m n : Message) → IsMessage m → Sound m → IsMessage n → Sound n → (m ≡ n) ↔ (message_octets m ≡ message_octets n) }
{}
