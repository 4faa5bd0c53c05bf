//! The lines of DATA chunks, which are put together into user messages.
ghost use Rattle.std.specs.Prelude.{◌≡◌, ◌++◌, IfOk, OnOk};
ghost use Rattle.packet_layers.specs.Values.{data_as};
ghost use Rattle.capture_trace.specs.Items.{alone, chunk_step, given_item, is_read};
ghost use Rattle.capture_trace.specs.Words.{ended, text_of};
ghost use Rattle.capture_trace.specs.Traced.{alone_line};

use crate::items::{is_for_m3ua, put_user};
use crate::kind::Kind;
use crate::subject::Subject;
use crate::words::put_skipped;
use packet_layers::Data;
use plan_model::Plan;
use sccp_base::OutOfMemory;
use std::alloc::Global;
use user_messages::{Gatherer, Given, Place};

/// The payload protocol of M2PA (RFC 4165, section 1.3).
const M2PA: u32 = 5;

/// Appends the line of a chunk of whose user message no others came in time.
pub fn put_alone(text: &mut Vec<u8>, place: Place) -> Result<(), OutOfMemory>
    ensures { OnOk result (text.new.items ≡ text.old.items ++ ended (alone_line place)) }
{
    let subject = Subject {
        packet: place.packet,
        chunk: Some(place.chunk),
    };
    put_skipped(text, subject, b"alone")
}

/// Appends the line of what a chunk gives.
#[tactic(auto, unfolding(crate::specs::Items::given_item))]
fn put_given(
    alloc: Global,
    text: &mut Vec<u8>,
    plan: &Plan,
    subject: Subject,
    chunk: &Data<'_>,
    given: &Given,
) -> Result<Kind, OutOfMemory>
    ensures kind { IfOk result (λ kind. kind ≡ (given_item plan.now subject (data_as chunk.now) given.now).kind) }
    ensures text { OnOk result (text.new.items ≡ text.old.items
        ++ text_of (given_item plan.now subject (data_as chunk.now) given.now).line) }
{
    match given {
        Given::Whole(octets) => put_user(alloc, text, plan, subject, chunk, octets.as_slice()),
        Given::Repeated => Ok(Kind::Repeated),
        Given::Waits(None) => Ok(Kind::Waiting),
        Given::Waits(Some(place)) => {
            put_alone(text, *place)?;
            Ok(Kind::Fault)
        }
    }
}

/// Whether a chunk is for a protocol that is read.
#[tactic(auto, unfolding(crate::specs::Items::is_read))]
pub fn is_read(chunk: &Data<'_>) -> bool
    ensures { result ≡ is_read (data_as chunk.now) }
{
    is_for_m3ua(chunk) || chunk.protocol == M2PA
}

/// Takes a chunk, and appends the line of what it gives.
#[tactic(auto, unfolding(crate::specs::Items::chunk_step))]
pub fn take_chunk(
    alloc: Global,
    text: &mut Vec<u8>,
    plan: &Plan,
    gatherer: &mut Gatherer,
    place: Place,
    chunk: &Data<'_>,
) -> Result<Kind, OutOfMemory>
    ensures gathered { OnOk result (gatherer.new ≡ (chunk_step plan.now place.packet gatherer.old place.chunk
        (data_as chunk.now)).gathered) }
    ensures kind { IfOk result (λ kind.
        kind ≡ (chunk_step plan.now place.packet gatherer.old place.chunk (data_as chunk.now)).item.kind) }
    ensures text { OnOk result (text.new.items ≡ text.old.items
        ++ text_of (chunk_step plan.now place.packet gatherer.old place.chunk (data_as chunk.now)).item.line) }
{
    if !is_read(chunk) {
        return Ok(Kind::Other);
    }
    let subject = Subject {
        packet: place.packet,
        chunk: Some(place.chunk),
    };
    let given = gatherer.take(place, chunk)?;
    let kind = put_given(alloc, text, plan, subject, chunk, &given);
    drop(given);
    kind
}
