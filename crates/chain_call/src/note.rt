//! What ends keep of the messages that they are handed.
ghost use Rattle.std.specs.Prelude.{◌≡◌, IfOk};
ghost use Rattle.chain_call.specs.Notes.{note_of};

use sccp_base::{Octets, OutOfMemory, Reference};
use sccp_message::Message;
use std::alloc::Global;

/// What an end keeps of a message that it is handed.
#[derive(Drop)]
pub enum Note {
    /// A connection request, with its source local reference.
    Request(Reference),
    /// A connection confirm, with its source local reference.
    Confirm(Reference),
    /// A refused connection, with the refusal cause.
    Refusal(u8),
    /// Data form 1 (DT1), with its destination reference and its data.
    Data { dlr: Reference, payload: Octets },
    /// A release (RLSD), with its destination and source references.
    Release { dlr: Reference, slr: Reference },
    /// Another message.
    Other,
}

impl Note {
    /// What an end keeps of a message. The only error is lack of memory.
    pub fn of(alloc: Global, message: &Message) -> Result<Note, OutOfMemory>
        ensures { IfOk result (λ note. note ≡ note_of message.now) }
    {
        match message {
            Message::Cr { slr, .. } => Ok(Note::Request(*slr)),
            Message::Cc { slr, .. } => Ok(Note::Confirm(*slr)),
            Message::Cref { cause, .. } => Ok(Note::Refusal(*cause)),
            Message::Dt1 { dlr, payload, .. } => Ok(Note::Data {
                dlr: *dlr,
                payload: payload.try_clone(alloc)?,
            }),
            Message::Rlsd { dlr, slr, .. } => Ok(Note::Release {
                dlr: *dlr,
                slr: *slr,
            }),
            _ => Ok(Note::Other),
        }
    }
}
