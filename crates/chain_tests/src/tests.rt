//! Connections over two relays at 1-0-2 and 1-0-3, from an end at 1-0-1 to one at 2-0-1, and the sections of one relay.
mod chain_of_sixteen;
mod connecting;
mod couplings;
mod given_again;
mod lines;
mod plans;

use chain_world::World;
use couple_chain::{Delivered, OfferFault};
use plans::plan_of;
use sample_plans::ROAMING;
use sccp_base::{Octets, PointCode, Reference};
use sccp_message::{Message, decode, encode};
use std::alloc::Global;
use std::test::Fail;

/// Who offers a message, to whom, and its octets. Then what ends are handed until no link holds a message, and the number of
/// sections after that.
type Line = (&'static str, &'static str, &'static str, &'static str, u32);

fn point_name(point: PointCode) -> &'static str {
    match point.value() {
        2049 => "1-0-1",
        2051 => "1-0-3",
        2052 => "1-0-4",
        4097 => "2-0-1",
        4098 => "2-0-2",
        4099 => "2-0-3",
        _ => "another point",
    }
}

fn point(name: &str) -> Result<PointCode, Fail> {
    Ok(PointCode::parse(name.as_bytes()).ok_or("a point code")?)
}

fn fault_name(fault: OfferFault) -> &'static str {
    match fault {
        OfferFault::NotAnEnd => "not an end",
        OfferFault::NotANode => "not a node",
        OfferFault::Connectionless => "connectionless",
        OfferFault::UsedReference => "used reference",
        OfferFault::NotWritable => "not writable",
        OfferFault::OutOfMemory => "out of memory",
    }
}

/// Writes the point of an end, and the octets of the message that it is handed.
fn handed(alloc: Global, text: &mut String, to: PointCode, message: &Message) -> Result<(), Fail> {
    if !text.is_empty() {
        text.push(' ')?;
    }
    text.push_str(point_name(to))?;
    text.push(' ')?;
    let octets = encode(alloc, message)?;
    text.push_str(&hex::encode_upper(alloc, octets.as_slice())?)?;
    Ok(())
}

/// Has a link deliver its oldest message, and writes what an end is handed.
fn deliver(
    alloc: Global,
    world: &mut World,
    text: &mut String,
    from: PointCode,
    to: PointCode,
) -> Result<(), Fail> {
    match world.deliver(from, to)? {
        Delivered::Out(message) => {
            let told = handed(alloc, text, to, &message);
            drop(message);
            told
        }
        _ => Ok(()),
    }
}

/// Has links deliver until none holds a message, at most forty times.
fn settle(alloc: Global, world: &mut World, text: &mut String) -> Result<(), Fail> {
    for _ in 0..40_u32 {
        match world.next() {
            Some((from, to)) => deliver(alloc, world, text, from, to)?,
            None => return Ok(()),
        }
    }
    Err("a world that is settled")?
}

/// Offers a message, and gives the fault of the offer.
fn refused(
    world: &mut World,
    from: PointCode,
    to: PointCode,
    message: Message,
) -> Option<OfferFault> {
    let offered = world.offer(from, to, &message);
    drop(message);
    match offered {
        Ok(()) => None,
        Err(fault) => Some(fault),
    }
}

/// Offers the message that these octets read as, and gives the fault of the offer.
fn offer(
    alloc: Global,
    world: &mut World,
    from: &str,
    to: &str,
    octets: &str,
) -> Result<Option<OfferFault>, Fail> {
    let from = point(from)?;
    let to = point(to)?;
    let octets = hex::decode(alloc, octets)?;
    let message = decode(alloc, &octets)?;
    Ok(refused(world, from, to, message))
}

/// The result of an offer: its fault, or what ends are handed.
fn told(alloc: Global, world: &mut World, line: &Line) -> Result<String, Fail> {
    let mut text = String::new(alloc);
    match offer(alloc, world, line.0, line.1, line.2)? {
        Some(fault) => text.push_str(fault_name(fault))?,
        None => settle(alloc, world, &mut text)?,
    }
    Ok(text)
}

/// Whether a line has the result that it says, and leaves a settled, fresh world.
fn is_so(alloc: Global, world: &mut World, line: &Line) -> Result<bool, Fail> {
    let text = told(alloc, world, line)?;
    let same = text.as_str() == line.3;
    Ok(same && world.sections() == line.4 && world.settled() && world.fresh())
}

/// The place of the first line that is wrong.
fn first_wrong(alloc: Global, world: &mut World, lines: &[Line]) -> Result<Option<usize>, Fail> {
    for (place, line) in lines.iter().enumerate() {
        if !is_so(alloc, world, line)? {
            return Ok(Some(place));
        }
    }
    Ok(None)
}

/// A world of two relays: `ROAMING` has them at 1-0-2 and 1-0-3.
fn new_world(alloc: Global) -> Result<World, Fail> {
    let plan = plan_of(alloc, ROAMING)?;
    Ok(World::new(alloc, plan)?)
}

/// The place of the first line that is wrong in a new world.
fn wrong_line(alloc: Global, lines: &[Line]) -> Result<Option<usize>, Fail> {
    let mut world = new_world(alloc)?;
    let place = first_wrong(alloc, &mut world, lines);
    drop(world);
    place
}

/// A connection that is made, used both ways and released. All titles are of selector 4:0:1:4, but 4:0:1:3 after the first
/// relay.
const OVER_TWO_RELAYS: [Line; 7] = [
    // CR, source 1, title 491710000012, hops 15. The far end gets CR, source 2, digits 01710000012, hops 13.
    (
        "1-0-1",
        "1-0-2",
        "0101000002020D0B120600120494710100002111010F00",
        "2-0-1 0102000002020D0B520600110310170000100211010D00",
        4,
    ),
    // CC, destination 2, source 2. The near end gets CC, destination 1, source 1.
    (
        "2-0-1",
        "1-0-3",
        "020200000200000200",
        "1-0-1 020100000100000200",
        4,
    ),
    // DT1, destination 1, more, data 41. The far end gets DT1, destination 2, more, data 41.
    (
        "1-0-1",
        "1-0-2",
        "0601000001010141",
        "2-0-1 0602000001010141",
        4,
    ),
    // DT1, destination 1, no more, data 42. The far end gets DT1, destination 2, no more, data 42.
    (
        "1-0-1",
        "1-0-2",
        "0601000000010142",
        "2-0-1 0602000000010142",
        4,
    ),
    // DT1, destination 2, no more, data 43. The near end gets DT1, destination 1, no more, data 43.
    (
        "2-0-1",
        "1-0-3",
        "0602000000010143",
        "1-0-1 0601000000010143",
        4,
    ),
    // RLSD, destination 1, source 1, cause 0. The near end gets RLC, destination 1, source 1; the far end RLSD, destination
    // 2, source 2.
    (
        "1-0-1",
        "1-0-2",
        "040100000100000000",
        "1-0-1 05010000010000 2-0-1 040200000200000000",
        1,
    ),
    // RLC, destination 2, source 2.
    ("2-0-1", "1-0-3", "05020000020000", "", 0),
];

/// The request goes on with new references, and its hop counter is two less at the far end. Data go on both ways with M, and
/// the release ends all sections.
#[test]
fn a_connection_over_two_relays(rt: HostRuntime) -> Result<(), Fail> {
    assert_eq!(rt; wrong_line(rt.alloc(), &OVER_TWO_RELAYS)?, None);
    Ok(())
}

/// Offers with four of the faults, a request that a relay refuses, and an RLC of no connection.
const REFUSED: [Line; 6] = [
    // RLC, destination 1, source 1, from a relay; then the same to an end.
    ("1-0-2", "1-0-1", "05010000010000", "not an end", 0),
    ("1-0-1", "2-0-1", "05010000010000", "not a node", 0),
    // UDT, class 0, called title 491710000012, calling 1-0-1 and subsystem 8, data AABB.
    (
        "1-0-1",
        "1-0-2",
        "0900030E120B1206001204947101000021044301080802AABB",
        "connectionless",
        0,
    ),
    // CR, source 1, title 47, which has no row. The end gets CREF, destination 1, cause 4 (destination address unknown).
    (
        "1-0-1",
        "1-0-2",
        "0101000002020006120600120474",
        "1-0-1 030100000400",
        0,
    ),
    // The same CR again.
    (
        "1-0-1",
        "1-0-2",
        "0101000002020006120600120474",
        "used reference",
        0,
    ),
    // RLC, destination 1, source 1, of no connection.
    ("2-0-1", "1-0-2", "05010000010000", "", 0),
];

/// Faults of an offer, and a request for which the plan has no row.
#[test]
fn offers_are_refused(rt: HostRuntime) -> Result<(), Fail> {
    assert_eq!(rt; wrong_line(rt.alloc(), &REFUSED)?, None);
    Ok(())
}

/// A DT1 with this number of octets.
fn data_of_size(alloc: Global, size: u32) -> Result<Message, Fail> {
    let mut payload = Octets::new(alloc);
    for _ in 0..size {
        payload.push(0)?;
    }
    let dlr = Reference::new(1).ok_or("a reference")?;
    Ok(Message::Dt1 {
        dlr,
        more: false,
        payload,
    })
}

/// The name of an offer's fault, if it has one.
fn said(fault: Option<OfferFault>) -> &'static str {
    match fault {
        Some(fault) => fault_name(fault),
        None => "accepted",
    }
}

/// The result of the offer of a DT1 with this number of octets.
fn offer_data(alloc: Global, world: &mut World, size: u32) -> Result<&'static str, Fail> {
    let from = point("1-0-1")?;
    let to = point("1-0-2")?;
    let message = data_of_size(alloc, size)?;
    Ok(said(refused(world, from, to, message)))
}

/// The same result in a new world.
fn offer_first(alloc: Global, size: u32) -> Result<&'static str, Fail> {
    let mut world = new_world(alloc)?;
    let told = offer_data(alloc, &mut world, size);
    drop(world);
    told
}

/// A DT1 carries at most 255 octets.
#[test]
fn data_that_are_too_long(rt: HostRuntime) -> Result<(), Fail> {
    assert_eq!(rt; offer_first(rt.alloc(), 255)?, "accepted");
    assert_eq!(rt; offer_first(rt.alloc(), 256)?, "not writable");
    Ok(())
}
