//! What a packet carries.
ghost use Rattle.std.specs.Prelude.{◌≡◌, ◌∷◌, ◌++◌, [], map, IfOk, OnOk};
ghost use Rattle.capture_trace.specs.Traced.{standing};
ghost use Rattle.packet_layers.specs.Values.{found_as};
ghost use Rattle.watch_items.specs.Captures.{all_found, counts_after, item_of_entry};
ghost use Rattle.watch_items.specs.Entries.{found_step};

use crate::chunks::{carried, take_chunk};
use crate::entry::Entry;
use crate::item::Item;
use capture_trace::{Counts, Kind, Subject, counted};
use packet_layers::Found;
use relay_watch::Event;
use sccp_base::{List, OutOfMemory};
use std::alloc::Global;
use user_messages::{Gatherer, Place};

/// What one thing in a packet gives.
#[tactic(auto, unfolding(crate::specs::Entries::found_step))]
fn take_found(
    alloc: Global,
    gatherer: &mut Gatherer,
    packet: u64,
    found: &Found<'_>,
) -> Result<Entry, OutOfMemory>
    ensures gathered { OnOk result (gatherer.new ≡ (found_step packet gatherer.old (found_as found.now)).gathered) }
    ensures entry { IfOk result (λ entry. entry ≡ (found_step packet gatherer.old (found_as found.now)).entry) }
{
    if let Found::Chunk(chunk, data) = found {
        let place = Place {
            packet,
            chunk: *chunk,
        };
        return take_chunk(alloc, gatherer, place, data);
    }
    let subject = Subject {
        packet,
        chunk: None,
    };
    carried(alloc, subject, found)
}

/// The counts after an entry.
fn counts_after(counts: &Counts, entry: &Entry) -> Result<Counts, OutOfMemory>
    ensures { IfOk result (λ after. after ≡ counts_after counts.now entry.now) }
{
    match entry {
        Entry::Message(_, _, _) => counted(Kind::Message, counts),
        Entry::Note(kind, _) => counted(*kind, counts),
    }
}

/// The item of an entry, by the counts after it.
fn item_of_entry(counts: &Counts, entry: Entry) -> Item
    ensures { result ≡ item_of_entry counts.now entry }
{
    match entry {
        Entry::Message(origin, destination, octets) => Item::Captured(
            counts.packets,
            Event {
                number: counts.messages,
                origin,
                destination,
                octets,
            },
        ),
        Entry::Note(_, line) => Item::Note(line),
    }
}

/// Appends the item of an entry, and gives the counts after it.
pub fn push_entry(
    items: &mut List<Item>,
    counts: &Counts,
    entry: Entry,
) -> Result<Counts, OutOfMemory>
    ensures now { IfOk result (λ after. after ≡ counts_after counts.now entry) }
    ensures items { OnOk result (items.new ≡ items.old ++ item_of_entry (counts_after counts.now entry) entry ∷ []) }
{
    match counts_after(counts, &entry) {
        Ok(after) => {
            items.push(item_of_entry(&after, entry))?;
            Ok(after)
        }
        Err(refused) => {
            drop(entry);
            Err(refused)
        }
    }
}

/// Appends the items of what a packet carries, in its order, and gives the counts after it.
pub fn take_all(
    alloc: Global,
    items: &mut List<Item>,
    gatherer: &mut Gatherer,
    counts: &Counts,
    found: &[Found<'_>],
) -> Result<Counts, OutOfMemory>
    ensures now { IfOk result (λ after.
        standing after gatherer.new ≡ (all_found (map found_as found.now) (standing counts.now gatherer.old)).now) }
    ensures items { OnOk result (items.new ≡ items.old ++ (all_found (map found_as found.now) (standing counts.now gatherer.old)).items) }
{
    let mut now = *counts;
    for one in found {
        let entry = take_found(alloc, gatherer, now.packets, one)?;
        now = push_entry(items, &now, entry)?;
    }
    Ok(now)
}
