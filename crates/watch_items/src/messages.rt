//! The messages of a capture: what becomes of what a DATA message, or a message of MTP3, carries.
ghost use Rattle.std.specs.Prelude.{◌≡◌, false, IfOk, OnOk};
ghost use Rattle.capture_trace.specs.Items.{left, payload_of, silent};
ghost use Rattle.m3ua_data.specs.Carried.{carried_of};
ghost use Rattle.m3ua_data.specs.Reading.{is_memory, reading};
ghost use Rattle.m3ua_trace.specs.Imported.{payload_in};
ghost use Rattle.packet_layers.specs.Values.{transfer_as};
ghost use Rattle.watch_items.specs.Entries.{between, for_point, from_point, from_payload, from_carried, from_reading, from_m3ua, note};
ghost use Rattle.watch_items.specs.Entries.{refused};

use crate::entry::Entry;
use crate::reading::{SCCP, point};
use capture_trace::{Kind, Subject, is_other_m3ua, put_skipped, put_skipped_number};
use m3ua_data::{Carried, Data, DataFault, carried, decode};
use m3ua_trace::fault_number;
use packet_layers::Transfer;
use sccp_base::{Octets, OutOfMemory, PointCode};
use std::alloc::Global;

/// The greatest number of octets for SCCP that `capture` prints in a line.
const MOST_OCTETS: usize = 4072;

/// Of something nothing is said.
pub fn silent(alloc: Global, kind: Kind) -> Entry
    ensures { result ≡ note (silent kind) }
{
    Entry::Note(kind, Octets::new(alloc))
}

/// A message is left out, for a reason that these words give.
fn left(alloc: Global, subject: Subject, words: &[u8]) -> Result<Entry, OutOfMemory>
    ensures { IfOk result (λ entry. entry ≡ note (left subject words.now)) }
{
    let mut line = Vec::new(alloc);
    put_skipped(&mut line, subject, words)?;
    Ok(Entry::Note(Kind::Left, Octets::from_vec(line)))
}

/// Octets from one point to another.
fn between(
    alloc: Global,
    subject: Subject,
    origin: PointCode,
    destination: PointCode,
    octets: &[u8],
) -> Result<Entry, OutOfMemory>
    ensures { IfOk result (λ entry. entry ≡ between subject origin destination octets.now) }
{
    if octets.is_empty() {
        return left(alloc, subject, b"empty");
    }
    if octets.len() > MOST_OCTETS {
        return left(alloc, subject, b"long");
    }
    let octets = Octets::from_vec(Vec::from_slice(alloc, octets)?);
    Ok(Entry::Message(origin, destination, octets))
}

/// Octets for a point, from another one.
fn for_point(
    alloc: Global,
    subject: Subject,
    origin: PointCode,
    octets: &[u8],
    destination: Option<PointCode>,
) -> Result<Entry, OutOfMemory>
    ensures { IfOk result (λ entry. entry ≡ for_point subject origin octets.now destination) }
{
    match destination {
        Some(destination) => between(alloc, subject, origin, destination, octets),
        None => left(alloc, subject, b"point"),
    }
}

/// What a message from a point is.
fn from_point(
    alloc: Global,
    subject: Subject,
    payload: &Carried<'_>,
    origin: Option<PointCode>,
) -> Result<Entry, OutOfMemory>
    ensures { IfOk result (λ entry. entry ≡ from_point subject (payload_in payload.now) origin) }
{
    match origin {
        Some(origin) => for_point(
            alloc,
            subject,
            origin,
            payload.payload,
            point(payload.destination),
        ),
        None => left(alloc, subject, b"point"),
    }
}

/// What a message is, by what it carries.
fn from_payload(
    alloc: Global,
    subject: Subject,
    payload: &Carried<'_>,
) -> Result<Entry, OutOfMemory>
    ensures { IfOk result (λ entry. entry ≡ from_payload subject (payload_in payload.now)) }
{
    if payload.service == SCCP {
        from_point(alloc, subject, payload, point(payload.origin))
    } else {
        Ok(silent(alloc, Kind::Other))
    }
}

/// What a message of MTP3 is.
pub fn from_transfer(
    alloc: Global,
    subject: Subject,
    transfer: &Transfer<'_>,
) -> Result<Entry, OutOfMemory>
    ensures { IfOk result (λ entry. entry ≡ from_payload subject (payload_of (transfer_as transfer.now))) }
{
    let payload = Carried {
        origin: u32::from(transfer.origin),
        destination: u32::from(transfer.destination),
        service: transfer.service,
        payload: transfer.payload,
    };
    from_payload(alloc, subject, &payload)
}

/// What octets are that have a fault.
fn refused(alloc: Global, subject: Subject, fault: &DataFault) -> Result<Entry, OutOfMemory>
    ensures entry { IfOk result (λ entry. entry ≡ refused subject fault.now) }
    ensures own { OnOk result (is_memory fault.now ≡ false) }
{
    match fault_number(fault) {
        Some(number) => {
            let mut line = Vec::new(alloc);
            put_skipped_number(&mut line, subject, b"refused ", u64::from(number))?;
            Ok(Entry::Note(Kind::Left, Octets::from_vec(line)))
        }
        None => Err(OutOfMemory),
    }
}

/// What a DATA message is, by its parameters.
fn from_data(alloc: Global, subject: Subject, message: &Data) -> Result<Entry, OutOfMemory>
    ensures { IfOk result (λ entry. entry ≡ from_carried subject (carried_of message.now)) }
{
    match carried(message) {
        Some(payload) => from_payload(alloc, subject, &payload),
        None => refused(alloc, subject, &DataFault::NoData),
    }
}

/// What octets are as a DATA message.
fn decoded(alloc: Global, subject: Subject, octets: &[u8]) -> Result<Entry, OutOfMemory>
    ensures { IfOk result (λ entry. entry ≡ from_reading subject (reading octets.now)) }
{
    match decode(alloc, octets) {
        Ok(message) => from_data(alloc, subject, &message),
        Err(fault) => refused(alloc, subject, &fault),
    }
}

/// What a user message for M3UA is.
pub fn from_m3ua(alloc: Global, subject: Subject, octets: &[u8]) -> Result<Entry, OutOfMemory>
    ensures { IfOk result (λ entry. entry ≡ from_m3ua subject octets.now) }
{
    if is_other_m3ua(octets) {
        return Ok(silent(alloc, Kind::Other));
    }
    decoded(alloc, subject, octets)
}
