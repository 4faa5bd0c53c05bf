//! What an end offers, as octets and as the message that they read as.
ghost use Rattle.std.specs.Prelude.{◌≡◌, ◌==◌, IfOk, IfSome};
ghost use Rattle.std.specs.List.{list_any};
ghost use Rattle.couple_chain.specs.World.{names, name_of};
ghost use Rattle.sccp_message.specs.Written.{IsMessage, Sound};
ghost use Rattle.sccp_message.specs.Reading.{reading};
ghost use Rattle.chain_world.specs.Offering.{if_read, read_again, offers_of};

use couple_chain::Happening;
use sccp_base::{OutOfMemory, PointCode, Reference};
use sccp_message::{DecodeFault, Message, decode};
use sccp_scrc::octets_of;
use std::alloc::Global;

/// The message that octets read as, if they do.
pub(crate) fn read(alloc: Global, octets: &[u8]) -> Result<Option<Message>, OutOfMemory>
    ensures value { IfOk result (λ message. message ≡ if_read (reading octets.now)) }
    ensures sound { IfOk result (λ message. IfSome message Sound) }
    ensures kept { IfOk result (λ message. IfSome message IsMessage) }
{
    match decode(alloc, octets) {
        Ok(message) => Ok(Some(message)),
        Err(DecodeFault::OutOfMemory) => Err(OutOfMemory),
        Err(_) => Ok(None),
    }
}

/// A message as it reads after it was written, if it can be written and read.
pub(crate) fn read_again(alloc: Global, message: &Message) -> Result<Option<Message>, OutOfMemory>
    ensures value { IfOk result (λ read. read ≡ read_again message.now) }
    ensures sound { IfOk result (λ read. IfSome read Sound) }
    ensures kept { IfOk result (λ read. IfSome read IsMessage) }
{
    match octets_of(alloc, message)? {
        Some(octets) => read(alloc, octets.as_slice()),
        None => Ok(None),
    }
}

/// The source local reference of a CR or CC.
pub(crate) fn name_of(message: &Message) -> Option<Reference>
    ensures { result ≡ name_of message.now }
{
    match message {
        Message::Cr { slr, .. } => Some(*slr),
        Message::Cc { slr, .. } => Some(*slr),
        _ => None,
    }
}

/// Whether a message is a CR or CC with this source local reference.
#[tactic(auto, using(couple_chain::proofs::Worlds::named_by))]
fn is_named(message: &Message, own: Reference) -> bool
    ensures { result ≡ names own message.now }
{
    match name_of(message) {
        Some(slr) => slr == own,
        None => false,
    }
}

/// Whether this is the offer, by this end, of a CR or CC with this source local reference.
fn uses(happening: &Happening, from: PointCode, own: Reference) -> bool
    ensures { result ≡ offers_of from own happening.now }
{
    match happening {
        Happening::Offers {
            from: point,
            message,
            ..
        } => *point == from && is_named(message, own),
        Happening::Delivers { .. } => false,
    }
}

/// Whether this end offered a CR or CC with this source local reference.
pub(crate) fn is_used(history: &[Happening], from: PointCode, own: Reference) -> bool
    ensures { result ≡ list_any (offers_of from own) history.now }
{
    history.iter().any(|h| uses(h, from, own))
}
