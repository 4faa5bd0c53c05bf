//! The items of a text.
ghost use Rattle.std.specs.Prelude.{◌≡◌, ◌≤◌, false, IfOk, OnOk};
ghost use Rattle.m3ua_data.specs.Carried.{carried_of};
ghost use Rattle.m3ua_data.specs.Reading.{is_memory};
ghost use Rattle.m3ua_trace.specs.Imported.{payload_in, fault_number};
ghost use Rattle.watch_items.specs.Items.{point, for_destination, from_origin, from_payload, from_carried, item_of, items_of, Gives};
ghost use Rattle.watch_items.specs.Steps.{GivesItem, TakesLine, TakesLines};
ghost use Rattle.watch_items.specs.declared.item.Item.TheVariants as items;
ghost use Rattle.trace_text.specs.Lines.{lines_of, text_line};

use crate::item::Item;
use m3ua_data::{Carried, Data, DataFault, carried, decode};
use m3ua_trace::{ImportError, fault_number, octets_of_line};
use relay_watch::Event;
use sccp_base::{List, Octets, OutOfMemory, PointCode};
use std::alloc::Global;
use trace_text::first_line;

/// The service indicator of SCCP (Q.704 section 14.2.1).
pub const SCCP: u8 = 3;

/// The point code of a number of 32 bits.
pub fn point(value: u32) -> Option<PointCode>
    ensures { result ≡ point value }
{
    if value < 16384 {
        PointCode::new(value as u16)
    } else {
        None
    }
}

/// A message for a point, from another one.
fn for_destination(
    alloc: Global,
    number: u32,
    origin: PointCode,
    octets: &[u8],
    destination: Option<PointCode>,
) -> Result<Item, OutOfMemory>
    ensures { IfOk result (λ item. item ≡ for_destination number origin octets.now destination) }
{
    let Some(destination) = destination else {
        return Ok(Item::OtherPoint(number));
    };
    if octets.is_empty() {
        return Ok(Item::NoOctets(number));
    }
    let octets = Octets::from_vec(Vec::from_slice(alloc, octets)?);
    Ok(Item::Seen(Event {
        number: u64::from(number),
        origin,
        destination,
        octets,
    }))
}

/// What a message from a point is.
fn from_origin(
    alloc: Global,
    number: u32,
    payload: &Carried<'_>,
    origin: Option<PointCode>,
) -> Result<Item, OutOfMemory>
    ensures { IfOk result (λ item. item ≡ from_origin number (payload_in payload.now) origin) }
{
    match origin {
        Some(origin) => for_destination(
            alloc,
            number,
            origin,
            payload.payload,
            point(payload.destination),
        ),
        None => Ok(Item::OtherPoint(number)),
    }
}

/// What a DATA message is, by what it carries.
fn from_payload(alloc: Global, number: u32, payload: &Carried<'_>) -> Result<Item, OutOfMemory>
    ensures { IfOk result (λ item. item ≡ from_payload number (payload_in payload.now)) }
{
    if payload.service == SCCP {
        from_origin(alloc, number, payload, point(payload.origin))
    } else {
        Ok(Item::Nothing)
    }
}

/// What a line is that has a fault.
fn refused(number: u32, fault: &DataFault) -> Result<Item, OutOfMemory>
    ensures item { IfOk result (λ item. item ≡ items.Refused number (fault_number fault.now)) }
    ensures own { OnOk result (is_memory fault.now ≡ false) }
{
    match fault_number(fault) {
        Some(fault) => Ok(Item::Refused(number, fault)),
        None => Err(OutOfMemory),
    }
}

/// What a DATA message is, by its parameters.
fn from_data(alloc: Global, number: u32, message: &Data) -> Result<Item, OutOfMemory>
    ensures { IfOk result (λ item. item ≡ from_carried number (carried_of message.now)) }
{
    match carried(message) {
        Some(payload) => from_payload(alloc, number, &payload),
        None => refused(number, &DataFault::NoData),
    }
}

/// What a line with these octets gives.
fn item_of(alloc: Global, number: u32, octets: &[u8]) -> Result<Item, OutOfMemory>
    ensures { IfOk result (λ item. item ≡ item_of number octets.now) }
{
    if octets.is_empty() {
        return Ok(Item::Nothing);
    }
    match decode(alloc, octets) {
        Ok(message) => from_data(alloc, number, &message),
        Err(fault) => refused(number, &fault),
    }
}

/// What a line gives, or its fault.
fn item_of_line(alloc: Global, number: u32, octets: &[u8], ended: bool) -> Result<Item, ImportError>
    ensures item { GivesItem number (text_line octets.now ended) result }
    ensures few { OnOk result (number ≤ 1000000) }
{
    let octets = octets_of_line(alloc, number, octets, ended)?;
    let item = item_of(alloc, number, octets.as_slice())?;
    Ok(item)
}

/// Appends what a line gives.
fn take_line(
    alloc: Global,
    items: &mut List<Item>,
    number: u32,
    octets: &[u8],
    ended: bool,
) -> Result<(), ImportError>
    ensures taken { TakesLine number (text_line octets.now ended) items.old items.new result }
    ensures few { OnOk result (number ≤ 1000000) }
{
    let item = item_of_line(alloc, number, octets, ended)?;
    items.push(item)?;
    Ok(())
}

/// Appends what the lines of a text give.
fn take_lines(alloc: Global, items: &mut List<Item>, text: &[u8]) -> Result<(), ImportError>
    ensures { TakesLines text.now items.old items.new result }
{
    let mut rest = text;
    let mut number = 1;
    while !rest.is_empty() {
        let line = first_line(rest);
        take_line(alloc, items, number, line.octets, line.ended)?;
        rest = line.rest;
        number += 1;
    }
    Ok(())
}

/// What the lines of a text give, or the first one that is no word of hexadecimal digits or breaks a limit of lines. The other error
/// is want of memory.
pub fn items_of(alloc: Global, text: &[u8]) -> Result<List<Item>, ImportError>
    ensures { Gives result (items_of text.now) }
{
    let mut items = List::new(alloc);
    match take_lines(alloc, &mut items, text) {
        Ok(()) => Ok(items),
        Err(fault) => {
            drop(items);
            Err(fault)
        }
    }
}
