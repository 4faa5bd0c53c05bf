//! The line of a trace for a DATA message.
ghost use Rattle.std.specs.Prelude.{◌≡◌, ◌++◌, decimal, false, find, OnOk, Some};
ghost use Rattle.std.specs.Option.{option_copied};
ghost use Rattle.hex.specs.Hex.{encode_upper};
ghost use Rattle.m3ua_data.specs.Carried.{carried_of};
ghost use Rattle.m3ua_data.specs.Reading.{is_memory};
ghost use Rattle.plan_model.specs.Network.{has_point};
ghost use Rattle.sccp_base.specs.Names.{name_of};
ghost use Rattle.sccp_report.specs.Values.{point_code_text};
ghost use Rattle.m3ua_trace.specs.Imported.{Refused, fault_number, number_unless_memory, name_at, for_node, payload_in, from_payload};
ghost use Rattle.m3ua_trace.specs.Imported.{from_carried, imported, imported_as, message_line, imported_text};

use crate::imported::Imported;
use m3ua_data::{Carried, Data, DataFault, carried, decode};
use plan_model::{Node, Plan};
use sccp_base::OutOfMemory;
use std::alloc::Global;

/// The service indicator of SCCP (Q.704 section 14.2.1).
const SCCP: u8 = 3;

/// The greatest point code.
const LAST_POINT: u32 = 16383;

/// Appends words unchanged.
fn put(text: &mut Vec<u8>, words: &[u8]) -> Result<(), OutOfMemory>
    ensures { OnOk result (text.new.items ≡ text.old.items ++ words.now) }
{
    text.extend_from_slice(words)?;
    Ok(())
}

/// Appends a number in decimal.
fn put_number(text: &mut Vec<u8>, number: u32) -> Result<(), OutOfMemory>
    ensures { OnOk result (text.new.items ≡ text.old.items ++ decimal number) }
{
    put(text, itoa::Buffer::new().format(number).as_bytes())
}

/// Appends a point code as zone, area and signalling point.
#[tactic(auto, unfolding(sccp_report::specs::Values::point_code_text))]
fn put_point_code(text: &mut Vec<u8>, pc: u32) -> Result<(), OutOfMemory>
    ensures { OnOk result (text.new.items ≡ text.old.items ++ point_code_text pc) }
{
    put_number(text, pc / 2048)?;
    put(text, b"-")?;
    put_number(text, pc / 8 % 256)?;
    put(text, b"-")?;
    put_number(text, pc % 8)
}

/// Appends the line of a message: its node, its origin and its octets, without a line feed. The error is want of memory.
#[tactic(auto, unfolding(crate::specs::Imported::message_line))]
pub fn put_message(
    alloc: Global,
    text: &mut Vec<u8>,
    name: &[u8],
    origin: u32,
    octets: &[u8],
) -> Result<(), OutOfMemory>
    ensures { OnOk result (text.new.items ≡ text.old.items ++ message_line name.now origin octets.now) }
{
    put(text, b"msg ")?;
    put(text, name)?;
    put(text, b" ")?;
    put_point_code(text, origin)?;
    put(text, b" ")?;
    let digits = hex::encode_upper(alloc, octets)?;
    put(text, digits.as_bytes())
}

/// The name of a node.
fn name(node: &Node) -> &[u8]
    ensures { name_of node.now.name ≡ Some result.now }
{
    node.name.as_slice()
}

/// The node with a point code.
fn node_at(plan: &Plan, pc: u32) -> Option<&Node>
    ensures { option_copied result ≡ find (has_point pc) plan.now.nodes }
{
    plan.nodes()
        .as_slice()
        .iter()
        .find(|node| u32::from(node.pc.value()) == pc)
}

/// The name of the node with a point code.
fn name_at(plan: &Plan, pc: u32) -> Option<&[u8]>
    ensures { option_copied result ≡ name_at plan.now pc }
{
    match node_at(plan, pc) {
        Some(node) => Some(name(node)),
        None => None,
    }
}

/// What becomes of octets for the node with a point code.
fn for_node<'a>(plan: &'a Plan, destination: u32, origin: u32, octets: &'a [u8]) -> Imported<'a>
    ensures { imported_as result ≡ for_node (name_at plan.now destination) origin octets.now }
{
    match name_at(plan, destination) {
        Some(name) => {
            if octets.is_empty() {
                return Imported::NoOctets;
            }
            Imported::Message(name, origin, octets)
        }
        None => Imported::UnknownNode,
    }
}

/// What becomes of what a DATA message, or a message of MTP3, carries under a plan.
pub fn imported_payload<'a>(plan: &'a Plan, payload: &Carried<'a>) -> Imported<'a>
    ensures { imported_as result ≡ from_payload plan.now (payload_in payload.now) }
{
    if payload.service != SCCP {
        return Imported::OtherService(payload.service);
    }
    if payload.origin > LAST_POINT || payload.destination > LAST_POINT {
        return Imported::OtherPoint;
    }
    for_node(plan, payload.destination, payload.origin, payload.payload)
}

/// Appends the line of what became of a DATA message.
#[tactic(auto, unfolding(crate::specs::Imported::imported_text))]
fn put_imported_line(
    alloc: Global,
    text: &mut Vec<u8>,
    imported: &Imported<'_>,
) -> Result<(), OutOfMemory>
    ensures { OnOk result (text.new.items ≡ text.old.items ++ imported_text (imported_as imported.now)) }
{
    match imported {
        Imported::Refused(number) => {
            put(text, b"# refused ")?;
            put_number(text, u32::from(*number))
        }
        Imported::OtherService(service) => {
            put(text, b"# service ")?;
            put_number(text, u32::from(*service))
        }
        Imported::OtherPoint => put(text, b"# point"),
        Imported::UnknownNode => put(text, b"# unknown node"),
        Imported::NoOctets => put(text, b"# empty"),
        Imported::Message(name, origin, octets) => {
            put_message(alloc, text, name, *origin, octets)
        }
    }
}

/// The number of a fault, in the order of testing. Want of memory is none.
pub fn fault_number(fault: &DataFault) -> Option<u8>
    ensures { result ≡ number_unless_memory fault.now }
{
    match fault {
        DataFault::Short => Some(1),
        DataFault::BadHeader => Some(2),
        DataFault::BadLength => Some(3),
        DataFault::BadParameter(_) => Some(4),
        DataFault::NoData => Some(5),
        DataFault::BadField(_) => Some(6),
        DataFault::OutOfMemory => None,
    }
}

/// Appends the line of a fault.
fn put_refused(alloc: Global, text: &mut Vec<u8>, fault: &DataFault) -> Result<(), OutOfMemory>
    ensures line { OnOk result (text.new.items ≡ text.old.items ++ imported_text (Refused (fault_number fault.now))) }
    ensures told { OnOk result (is_memory fault.now ≡ false) }
{
    match fault_number(fault) {
        Some(number) => put_imported_line(alloc, text, &Imported::Refused(number)),
        None => Err(OutOfMemory),
    }
}

/// Appends the line of what the parameters of a DATA message carry.
fn put_data(
    alloc: Global,
    text: &mut Vec<u8>,
    plan: &Plan,
    message: &Data,
) -> Result<(), OutOfMemory>
    ensures { OnOk result (text.new.items ≡ text.old.items ++ imported_text (from_carried plan.now (carried_of message.now))) }
{
    match carried(message) {
        Some(payload) => put_imported_line(alloc, text, &imported_payload(plan, &payload)),
        None => put_refused(alloc, text, &DataFault::NoData),
    }
}

/// Appends the line of a trace for the octets of a DATA message, without a line feed. The error is want of memory.
pub fn put_imported(
    alloc: Global,
    text: &mut Vec<u8>,
    plan: &Plan,
    octets: &[u8],
) -> Result<(), OutOfMemory>
    ensures { OnOk result (text.new.items ≡ text.old.items ++ imported_text (imported plan.now octets.now)) }
{
    match decode(alloc, octets) {
        Ok(data) => put_data(alloc, text, plan, &data),
        Err(fault) => put_refused(alloc, text, &fault),
    }
}
