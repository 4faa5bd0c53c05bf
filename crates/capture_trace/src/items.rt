//! The lines of what a packet carries.
ghost use Rattle.std.specs.Prelude.{◌≡◌, ◌++◌, false, IfOk, OnOk};
ghost use Rattle.m3ua_data.specs.Carried.{carried_of};
ghost use Rattle.m3ua_data.specs.Reading.{is_memory};
ghost use Rattle.m3ua_trace.specs.Imported.{Refused, fault_number, from_carried, from_payload, imported, imported_as};
ghost use Rattle.packet_layers.specs.Values.{data_as, found_as, transfer_as};
ghost use Rattle.capture_trace.specs.Items.{bare_item, carried_item, imported_item, is_for_m3ua, is_other_m3ua, m3ua_item, message_item};
ghost use Rattle.capture_trace.specs.Items.{payload_of, user_item};
ghost use Rattle.capture_trace.specs.Words.{text_of};

use crate::kind::Kind;
use crate::subject::Subject;
use crate::words::{
    put, put_bad_chunk, put_skipped, put_skipped_number, put_skipped_octets, put_unread,
};
use m3ua_data::{Carried, Data as Message, DataFault, carried, decode};
use m3ua_trace::{Imported, fault_number, imported_payload, put_message};
use packet_layers::{Data, Found, Transfer, m2pa};
use plan_model::Plan;
use sccp_base::OutOfMemory;
use std::alloc::Global;

/// The greatest number of octets for SCCP in a line of a trace.
const MOST_OCTETS: usize = 4072;

/// The port of M3UA (RFC 4666, section 1.4.8).
const M3UA_PORT: u16 = 2905;

/// The payload protocol of M3UA (RFC 4666, section 1.4.7).
const M3UA: u32 = 3;

/// Appends the line of a message, which has to fit a line.
#[tactic(auto, unfolding(crate::specs::Items::message_item))]
fn put_fitting(
    alloc: Global,
    text: &mut Vec<u8>,
    subject: Subject,
    name: &[u8],
    origin: u32,
    octets: &[u8],
) -> Result<Kind, OutOfMemory>
    ensures kind { IfOk result (λ kind. kind ≡ (message_item subject name.now origin octets.now).kind) }
    ensures text { OnOk result (text.new.items ≡ text.old.items ++ text_of (message_item subject name.now origin octets.now).line) }
{
    if octets.len() > MOST_OCTETS {
        put_skipped(text, subject, b"long")?;
        return Ok(Kind::Left);
    }
    put_message(alloc, text, name, origin, octets)?;
    put(text, b"\n")?;
    Ok(Kind::Message)
}

/// Appends the line of what became of a DATA message, or of a message of MTP3.
#[tactic(auto, unfolding(crate::specs::Items::imported_item))]
fn put_imported(
    alloc: Global,
    text: &mut Vec<u8>,
    subject: Subject,
    imported: &Imported<'_>,
) -> Result<Kind, OutOfMemory>
    ensures kind { IfOk result (λ kind. kind ≡ (imported_item subject (imported_as imported.now)).kind) }
    ensures text { OnOk result (text.new.items ≡ text.old.items ++ text_of (imported_item subject (imported_as imported.now)).line) }
{
    match imported {
        Imported::Refused(number) => {
            put_skipped_number(text, subject, b"refused ", u64::from(*number))?;
            Ok(Kind::Left)
        }
        Imported::OtherService(service) => {
            put_skipped_number(text, subject, b"service ", u64::from(*service))?;
            Ok(Kind::Left)
        }
        Imported::OtherPoint => {
            put_skipped(text, subject, b"point")?;
            Ok(Kind::Left)
        }
        Imported::UnknownNode => {
            put_skipped(text, subject, b"unknown node")?;
            Ok(Kind::Left)
        }
        Imported::NoOctets => {
            put_skipped(text, subject, b"empty")?;
            Ok(Kind::Left)
        }
        Imported::Message(name, origin, octets) => {
            put_fitting(alloc, text, subject, name, *origin, octets)
        }
    }
}

/// Appends the line of octets that are no DATA message.
fn put_refused(
    alloc: Global,
    text: &mut Vec<u8>,
    subject: Subject,
    fault: &DataFault,
) -> Result<Kind, OutOfMemory>
    ensures kind { IfOk result (λ kind. kind ≡ (imported_item subject (Refused (fault_number fault.now))).kind) }
    ensures text { OnOk result (text.new.items ≡ text.old.items
        ++ text_of (imported_item subject (Refused (fault_number fault.now))).line) }
    ensures told { OnOk result (is_memory fault.now ≡ false) }
{
    match fault_number(fault) {
        Some(number) => put_imported(alloc, text, subject, &Imported::Refused(number)),
        None => Err(OutOfMemory),
    }
}

/// Appends the line of what the parameters of a DATA message carry.
fn put_data(
    alloc: Global,
    text: &mut Vec<u8>,
    plan: &Plan,
    subject: Subject,
    message: &Message,
) -> Result<Kind, OutOfMemory>
    ensures kind { IfOk result (λ kind. kind ≡ (imported_item subject (from_carried plan.now (carried_of message.now))).kind) }
    ensures text { OnOk result (text.new.items ≡ text.old.items
        ++ text_of (imported_item subject (from_carried plan.now (carried_of message.now))).line) }
{
    match carried(message) {
        Some(payload) => put_imported(alloc, text, subject, &imported_payload(plan, &payload)),
        None => put_refused(alloc, text, subject, &DataFault::NoData),
    }
}

/// Appends the line of octets as a DATA message.
fn put_decoded(
    alloc: Global,
    text: &mut Vec<u8>,
    plan: &Plan,
    subject: Subject,
    octets: &[u8],
) -> Result<Kind, OutOfMemory>
    ensures kind { IfOk result (λ kind. kind ≡ (imported_item subject (imported plan.now octets.now)).kind) }
    ensures text { OnOk result (text.new.items ≡ text.old.items ++ text_of (imported_item subject (imported plan.now octets.now)).line) }
{
    match decode(alloc, octets) {
        Ok(message) => put_data(alloc, text, plan, subject, &message),
        Err(fault) => put_refused(alloc, text, subject, &fault),
    }
}

/// Whether octets are a message of M3UA of another class or type than DATA.
#[tactic(auto, unfolding(crate::specs::Items::is_other_m3ua))]
pub fn is_other_m3ua(octets: &[u8]) -> bool
    ensures { result ≡ is_other_m3ua octets.now }
{
    octets.len() >= 8 && octets[0] == 1 && !(octets[2] == 1 && octets[3] == 1)
}

/// Appends the line of a user message for M3UA.
#[tactic(auto, unfolding(crate::specs::Items::m3ua_item))]
fn put_m3ua(
    alloc: Global,
    text: &mut Vec<u8>,
    plan: &Plan,
    subject: Subject,
    octets: &[u8],
) -> Result<Kind, OutOfMemory>
    ensures kind { IfOk result (λ kind. kind ≡ (m3ua_item plan.now subject octets.now).kind) }
    ensures text { OnOk result (text.new.items ≡ text.old.items ++ text_of (m3ua_item plan.now subject octets.now).line) }
{
    if is_other_m3ua(octets) {
        return Ok(Kind::Other);
    }
    put_decoded(alloc, text, plan, subject, octets)
}

/// Appends the line of a message of SCCP without point codes.
#[tactic(auto, unfolding(crate::specs::Items::bare_item))]
pub fn put_bare(
    alloc: Global,
    text: &mut Vec<u8>,
    subject: Subject,
    octets: &[u8],
) -> Result<Kind, OutOfMemory>
    ensures kind { IfOk result (λ kind. kind ≡ (bare_item subject octets.now).kind) }
    ensures text { OnOk result (text.new.items ≡ text.old.items ++ text_of (bare_item subject octets.now).line) }
{
    if octets.is_empty() {
        put_skipped(text, subject, b"empty")?;
        return Ok(Kind::Left);
    }
    if octets.len() > MOST_OCTETS {
        put_skipped(text, subject, b"long")?;
        return Ok(Kind::Left);
    }
    put_skipped_octets(alloc, text, subject, b"sccp ", octets)?;
    Ok(Kind::Left)
}

/// Appends the line of a message of MTP3.
fn put_transfer(
    alloc: Global,
    text: &mut Vec<u8>,
    plan: &Plan,
    subject: Subject,
    transfer: &Transfer<'_>,
) -> Result<Kind, OutOfMemory>
    ensures kind { IfOk result
        (λ kind. kind ≡ (imported_item subject (from_payload plan.now (payload_of (transfer_as transfer.now)))).kind) }
    ensures text { OnOk result (text.new.items ≡ text.old.items
        ++ text_of (imported_item subject (from_payload plan.now (payload_of (transfer_as transfer.now)))).line) }
{
    let payload = Carried {
        origin: u32::from(transfer.origin),
        destination: u32::from(transfer.destination),
        service: transfer.service,
        payload: transfer.payload,
    };
    put_imported(alloc, text, subject, &imported_payload(plan, &payload))
}

/// Appends the line of what a packet carries, but for a DATA chunk, which is taken together with others.
#[tactic(auto, unfolding(crate::specs::Items::carried_item))]
pub fn put_carried(
    alloc: Global,
    text: &mut Vec<u8>,
    plan: &Plan,
    subject: Subject,
    found: &Found<'_>,
) -> Result<Kind, OutOfMemory>
    ensures kind { IfOk result (λ kind. kind ≡ (carried_item plan.now subject (found_as found.now)).kind) }
    ensures text { OnOk result (text.new.items ≡ text.old.items ++ text_of (carried_item plan.now subject (found_as found.now)).line) }
{
    match found {
        Found::Chunk(_, _) => Ok(Kind::Other),
        Found::BadChunk(chunk, fault) => {
            let subject = Subject {
                packet: subject.packet,
                chunk: Some(*chunk),
            };
            put_bad_chunk(text, subject, *fault)?;
            Ok(Kind::Fault)
        }
        Found::Transfer(transfer) => put_transfer(alloc, text, plan, subject, transfer),
        Found::Sccp(octets) => put_bare(alloc, text, subject, octets),
        Found::Unread(fault) => {
            put_unread(text, subject, *fault)?;
            Ok(Kind::Fault)
        }
        Found::Other => Ok(Kind::Other),
    }
}

/// Whether a chunk is for M3UA.
#[tactic(auto, unfolding(crate::specs::Items::is_for_m3ua))]
pub fn is_for_m3ua(chunk: &Data<'_>) -> bool
    ensures { result ≡ is_for_m3ua (data_as chunk.now) }
{
    chunk.protocol == M3UA || chunk.flow.source == M3UA_PORT || chunk.flow.destination == M3UA_PORT
}

/// Appends the line of a whole user message, by its last chunk.
#[tactic(auto, unfolding(crate::specs::Items::user_item))]
pub fn put_user(
    alloc: Global,
    text: &mut Vec<u8>,
    plan: &Plan,
    subject: Subject,
    chunk: &Data<'_>,
    octets: &[u8],
) -> Result<Kind, OutOfMemory>
    ensures kind { IfOk result (λ kind. kind ≡ (user_item plan.now subject (data_as chunk.now) octets.now).kind) }
    ensures text { OnOk result (text.new.items ≡ text.old.items
        ++ text_of (user_item plan.now subject (data_as chunk.now) octets.now).line) }
{
    if is_for_m3ua(chunk) {
        return put_m3ua(alloc, text, plan, subject, octets);
    }
    put_carried(alloc, text, plan, subject, &m2pa(octets))
}
