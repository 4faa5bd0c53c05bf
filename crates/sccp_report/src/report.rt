//! The text of the message that octets are, or why they are none.
ghost use Rattle.std.specs.Prelude.{◌≡◌, ◌++◌, Ok, IfOk, OnOk};
ghost use Rattle.sccp_message.specs.Encoding.{canonical};
ghost use Rattle.sccp_message.specs.Reading.{reading};
ghost use Rattle.sccp_report.specs.MessageText.{message_lines, undecodable_line, canonical_line, message_text};

use crate::fault::put_fault;
use crate::message::put_message;
use crate::text::Text;
use sccp_base::{Octets, OutOfMemory};
use sccp_message::{DecodeFault, Message, canonical_as, decode};
use std::alloc::Global;

/// Appends the line on octets that are no message.
#[tactic(auto, unfolding(crate::specs::MessageText::undecodable_line))]
pub fn put_undecodable(text: &mut Text, fault: DecodeFault) -> Result<(), OutOfMemory>
    ensures { OnOk result (text.new ≡ text.old ++ undecodable_line fault) }
{
    text.put(b"undecodable ")?;
    put_fault(text, fault)?;
    text.put(b"\n")
}

// The message that octets are, and whether they are those that are written of it.
fn put_tested(
    alloc: Global,
    text: &mut Text,
    message: &Message,
    octets: &[u8],
) -> Result<(), OutOfMemory>
    requires { reading octets.now ≡ Ok message.now }
    ensures { OnOk result (text.new ≡ text.old ++ message_lines message.now ++ canonical_line (canonical octets.now)) }
{
    put_message(text, message)?;
    put_canonical(text, canonical_as(alloc, message, octets)?)
}

// Whether the octets are those that are written of the message.
#[tactic(auto, unfolding(crate::specs::MessageText::canonical_line))]
fn put_canonical(text: &mut Text, holds: bool) -> Result<(), OutOfMemory>
    ensures { OnOk result (text.new ≡ text.old ++ canonical_line holds) }
{
    text.put(if holds {
        b"canonical yes\n"
    } else {
        b"canonical no\n"
    })
}

/// The lines of the message that the octets are, or the one line that says why they are none.
#[tactic(auto, unfolding(crate::specs::MessageText::message_text))]
pub fn message_text(alloc: Global, octets: &[u8]) -> Result<Octets, OutOfMemory>
    ensures { IfOk result (λ text. text ≡ message_text octets.now) }
{
    let mut text = Text::new(alloc);
    match decode(alloc, octets) {
        Ok(message) => {
            let told = put_tested(alloc, &mut text, &message, octets);
            drop(message);
            told?
        }
        Err(DecodeFault::OutOfMemory) => return Err(OutOfMemory),
        Err(fault) => put_undecodable(&mut text, fault)?,
    }
    Ok(text.into_octets())
}
