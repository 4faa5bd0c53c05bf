//! DATA chunks, which are put together into user messages.
ghost use Rattle.std.specs.Prelude.{◌≡◌, IfOk, OnOk};
ghost use Rattle.capture_trace.specs.Items.{alone, bare_item, fault};
ghost use Rattle.capture_trace.specs.Words.{chunk_fault_word, fault_words, on_chunk};
ghost use Rattle.packet_layers.specs.Values.{data_as, found_as};
ghost use Rattle.watch_items.specs.Entries.{carried, chunk_step, given, note, user};

use crate::entry::Entry;
use crate::messages::{from_m3ua, from_transfer, silent};
use capture_trace::{
    Kind, Subject, is_for_m3ua, is_read, put_alone, put_bad_chunk, put_bare, put_unread,
};
use packet_layers::{ChunkFault, Data, Fault, Found, m2pa};
use sccp_base::{Octets, OutOfMemory};
use std::alloc::Global;
use user_messages::{Gatherer, Given, Place};

/// A chunk of whose user message no others came in time.
fn alone(alloc: Global, place: Place) -> Result<Entry, OutOfMemory>
    ensures { IfOk result (λ entry. entry ≡ note (alone place)) }
{
    let mut line = Vec::new(alloc);
    put_alone(&mut line, place)?;
    Ok(Entry::Note(Kind::Fault, Octets::from_vec(line)))
}

/// A chunk that is not read.
fn bad_chunk(
    alloc: Global,
    packet: u64,
    chunk: usize,
    why: ChunkFault,
) -> Result<Entry, OutOfMemory>
    ensures { IfOk result (λ entry. entry ≡ note (fault (on_chunk packet chunk) (chunk_fault_word why))) }
{
    let subject = Subject {
        packet,
        chunk: Some(chunk),
    };
    let mut line = Vec::new(alloc);
    put_bad_chunk(&mut line, subject, why)?;
    Ok(Entry::Note(Kind::Fault, Octets::from_vec(line)))
}

/// A message of SCCP without point codes.
fn bare(alloc: Global, subject: Subject, octets: &[u8]) -> Result<Entry, OutOfMemory>
    ensures { IfOk result (λ entry. entry ≡ note (bare_item subject octets.now)) }
{
    let mut line = Vec::new(alloc);
    let kind = put_bare(alloc, &mut line, subject, octets)?;
    Ok(Entry::Note(kind, Octets::from_vec(line)))
}

/// A packet that is not read.
fn unread(alloc: Global, subject: Subject, why: Fault) -> Result<Entry, OutOfMemory>
    ensures { IfOk result (λ entry. entry ≡ note (fault subject (fault_words why))) }
{
    let mut line = Vec::new(alloc);
    put_unread(&mut line, subject, why)?;
    Ok(Entry::Note(Kind::Fault, Octets::from_vec(line)))
}

/// What a packet carries, but for a DATA chunk, which is taken together with others.
pub fn carried(alloc: Global, subject: Subject, found: &Found<'_>) -> Result<Entry, OutOfMemory>
    ensures { IfOk result (λ entry. entry ≡ carried subject (found_as found.now)) }
{
    match found {
        Found::Chunk(_, _) => Ok(silent(alloc, Kind::Other)),
        Found::BadChunk(chunk, why) => bad_chunk(alloc, subject.packet, *chunk, *why),
        Found::Transfer(transfer) => from_transfer(alloc, subject, transfer),
        Found::Sccp(octets) => bare(alloc, subject, octets),
        Found::Unread(why) => unread(alloc, subject, *why),
        Found::Other => Ok(silent(alloc, Kind::Other)),
    }
}

/// A whole user message, by its last chunk.
#[tactic(auto, unfolding(crate::specs::Entries::user))]
fn user(
    alloc: Global,
    subject: Subject,
    chunk: &Data<'_>,
    octets: &[u8],
) -> Result<Entry, OutOfMemory>
    ensures { IfOk result (λ entry. entry ≡ user subject (data_as chunk.now) octets.now) }
{
    if is_for_m3ua(chunk) {
        return from_m3ua(alloc, subject, octets);
    }
    carried(alloc, subject, &m2pa(octets))
}

/// What a chunk gives.
#[tactic(auto, unfolding(crate::specs::Entries::given))]
fn given(
    alloc: Global,
    subject: Subject,
    chunk: &Data<'_>,
    told: &Given,
) -> Result<Entry, OutOfMemory>
    ensures { IfOk result (λ entry. entry ≡ given subject (data_as chunk.now) told.now) }
{
    match told {
        Given::Whole(octets) => user(alloc, subject, chunk, octets.as_slice()),
        Given::Repeated => Ok(silent(alloc, Kind::Repeated)),
        Given::Waits(None) => Ok(silent(alloc, Kind::Waiting)),
        Given::Waits(Some(place)) => alone(alloc, *place),
    }
}

/// Takes a chunk, and says what it gives.
#[tactic(auto, unfolding(crate::specs::Entries::chunk_step))]
pub fn take_chunk(
    alloc: Global,
    gatherer: &mut Gatherer,
    place: Place,
    chunk: &Data<'_>,
) -> Result<Entry, OutOfMemory>
    ensures gathered { OnOk result (gatherer.new ≡ (chunk_step place.packet gatherer.old place.chunk (data_as chunk.now)).gathered) }
    ensures entry { IfOk result (λ entry. entry ≡ (chunk_step place.packet gatherer.old place.chunk (data_as chunk.now)).entry) }
{
    if !is_read(chunk) {
        return Ok(silent(alloc, Kind::Other));
    }
    let subject = Subject {
        packet: place.packet,
        chunk: Some(place.chunk),
    };
    let told = gatherer.take(place, chunk)?;
    let entry = given(alloc, subject, chunk, &told);
    drop(told);
    entry
}
