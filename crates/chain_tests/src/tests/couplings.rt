//! Coupled connections at 1-0-2, the first relay of a plan.
ghost use Rattle.sccp_message.specs.Reads.{Reads};

use super::plans::plan_of;
use plan_model::Plan;
use sample_plans::ONE_TARGET;
use sccp_base::{List, Marking, OutOfMemory, PointCode};
use sccp_couple::{Exchange, is_connection, vouch_short};
use sccp_manage::Sent;
use sccp_message::{Message, decode};
use std::alloc::Global;
use std::test::Fail;

/// The point that a message is from, its octets, what is sent then, and the number of sections after that.
type Line = (&'static str, &'static str, &'static str, usize);

fn point_name(point: PointCode) -> &'static str {
    match point.value() {
        2049 => "1-0-1",
        4097 => "2-0-1",
        _ => "another point",
    }
}

/// Each message that is sent, after the point that it goes to.
fn text_of(alloc: Global, sent: &[Sent]) -> Result<String, Fail> {
    let mut text = String::new(alloc);
    for one in sent {
        if !text.is_empty() {
            text.push(' ')?;
        }
        text.push_str(point_name(one.to))?;
        text.push(' ')?;
        text.push_str(&hex::encode_upper(alloc, one.octets.as_slice())?)?;
    }
    Ok(text)
}

/// What the coupling sends for a message. There is nothing if it is connectionless, or if the node is not in the plan.
fn taken(
    plan: &Plan,
    marking: &Marking,
    exchange: &mut Exchange,
    origin: PointCode,
    octets: &[u8],
    message: &Message,
) -> Result<Option<List<Sent>>, OutOfMemory>
    requires { Reads octets.now message.now }
{
    if !is_connection(message) {
        return Ok(None);
    }
    if usize::from(exchange.node()) >= plan.nodes().as_slice().len() {
        return Ok(None);
    }
    vouch_short(octets, message);
    let sent = exchange.on(plan, marking, origin, message)?;
    Ok(Some(sent))
}

/// What the coupling sends for the message that octets read as.
fn sent_for(
    alloc: Global,
    plan: &Plan,
    marking: &Marking,
    exchange: &mut Exchange,
    origin: PointCode,
    octets: &[u8],
) -> Result<Option<List<Sent>>, Fail> {
    let message = decode(alloc, octets)?;
    let sent = taken(plan, marking, exchange, origin, octets, &message);
    drop(message);
    Ok(sent?)
}

/// What is sent for a message, as text.
fn answer(
    alloc: Global,
    plan: &Plan,
    marking: &Marking,
    exchange: &mut Exchange,
    origin: &str,
    octets: &[u8],
) -> Result<String, Fail> {
    let origin = PointCode::parse(origin.as_bytes()).ok_or("a point code")?;
    match sent_for(alloc, plan, marking, exchange, origin, octets)? {
        Some(sent) => {
            let text = text_of(alloc, sent.as_slice());
            drop(sent);
            text
        }
        None => Err("a message that the node couples")?,
    }
}

/// Whether a message leads to what its line says: the messages sent, and the number of sections.
fn is_so(
    alloc: Global,
    plan: &Plan,
    marking: &Marking,
    exchange: &mut Exchange,
    line: &Line,
) -> Result<bool, Fail> {
    let octets = hex::decode(alloc, line.1)?;
    let sent = answer(alloc, plan, marking, exchange, line.0, &octets)?;
    Ok(sent.as_str() == line.2 && exchange.sections().as_slice().len() == line.3)
}

/// The place of the first line that is wrong, of messages that follow one another.
fn first_wrong(
    alloc: Global,
    plan: &Plan,
    marking: &Marking,
    exchange: &mut Exchange,
    lines: &[Line],
) -> Result<Option<usize>, Fail> {
    for (place, line) in lines.iter().enumerate() {
        if !is_so(alloc, plan, marking, exchange, line)? {
            return Ok(Some(place));
        }
    }
    Ok(None)
}

/// The place of the first line that is wrong, beginning without sections.
fn wrong_line(alloc: Global, lines: &[Line]) -> Result<Option<usize>, Fail> {
    let plan = plan_of(alloc, ONE_TARGET)?;
    let marking = Marking::new(alloc);
    let mut exchange = Exchange::new(alloc, 0);
    let place = first_wrong(alloc, &plan, &marking, &mut exchange, lines);
    drop(exchange);
    drop(marking);
    drop(plan);
    place
}

/// One connection through the relay. The relay gives its two sections the references 1 and 2.
const MADE_USED_AND_RELEASED: [Line; 10] = [
    // CR, source 17, title 491710000012. It goes on as CR, source 2, routed on subsystem 6.
    (
        "1-0-1",
        "011100000202000B1206001204947101000021",
        "2-0-1 010200000202000B5206001204947101000021",
        2,
    ),
    // CC, destination 2, source 34. It goes on as CC, destination 17, source 1.
    ("2-0-1", "020200002200000200", "1-0-1 021100000100000200", 2),
    // DT1, destination 1, more, data 41; it goes on to destination 34. Then the same with data 42.
    ("1-0-1", "0601000001010141", "2-0-1 0622000001010141", 2),
    ("1-0-1", "0601000001010142", "2-0-1 0622000001010142", 2),
    // DT1, destination 1, no more, data 43; it goes on to destination 34.
    ("1-0-1", "0601000000010143", "2-0-1 0622000000010143", 2),
    // DT1, destination 2, no more, data 44; it goes on to destination 17.
    ("2-0-1", "0602000000010144", "1-0-1 0611000000010144", 2),
    // RLSD, destination 1, source 17, cause 3. RLC, destination 17, source 1, goes back; RLSD, destination 34, source 2, goes
    // on.
    (
        "1-0-1",
        "040100001100000300",
        "1-0-1 05110000010000 2-0-1 042200000200000300",
        1,
    ),
    // DT1, destination 1, more, data 45, after the release.
    ("1-0-1", "0601000001010145", "", 1),
    // CC, destination 9, source 51, of no section. ERR, destination 51, cause 0 (unassigned destination reference), goes
    // back.
    ("2-0-1", "020900003300000200", "2-0-1 0F33000000", 1),
    // RLC, destination 2, source 34.
    ("2-0-1", "05020000220000", "", 0),
];

/// The worked connection: data go on both ways, and none go on after the release.
#[test]
fn a_connection_is_made_used_and_released(rt: HostRuntime) -> Result<(), Fail> {
    assert_eq!(rt; wrong_line(rt.alloc(), &MADE_USED_AND_RELEASED)?, None);
    Ok(())
}

/// Sends CR for connections to which 1-0-1 gave the references from 0 on, with the title 491710000012.
fn request_all(
    alloc: Global,
    plan: &Plan,
    marking: &Marking,
    exchange: &mut Exchange,
    count: u16,
) -> Result<(), Fail> {
    for number in 0..count {
        let [high, low] = number.to_be_bytes();
        let octets = [
            0x01, low, high, 0x00, 0x02, 0x02, 0x00, 0x0B, 0x12, 0x06, 0x00, 0x12, 0x04, 0x94,
            0x71, 0x01, 0x00, 0x00, 0x21,
        ];
        let _ = answer(alloc, plan, marking, exchange, "1-0-1", &octets)?;
    }
    Ok(())
}

/// The place of the first line that is wrong after 2,047 requests.
fn first_wrong_then(
    alloc: Global,
    plan: &Plan,
    marking: &Marking,
    exchange: &mut Exchange,
    lines: &[Line],
) -> Result<Option<usize>, Fail> {
    request_all(alloc, plan, marking, exchange, 2047)?;
    first_wrong(alloc, plan, marking, exchange, lines)
}

/// The place of the first line that is wrong after 2,047 requests, beginning without sections.
fn wrong_line_then(alloc: Global, lines: &[Line]) -> Result<Option<usize>, Fail> {
    let plan = plan_of(alloc, ONE_TARGET)?;
    let marking = Marking::new(alloc);
    let mut exchange = Exchange::new(alloc, 0);
    let place = first_wrong_then(alloc, &plan, &marking, &mut exchange, lines);
    drop(exchange);
    drop(marking);
    drop(plan);
    place
}

/// Messages at the limit of sections. Each CR has the title 491710000012.
const AT_THE_LIMIT: [Line; 7] = [
    // CR, source 2047. It goes on as CR, source 4096, which is the last reference.
    (
        "1-0-1",
        "01FF07000202000B1206001204947101000021",
        "2-0-1 010010000202000B5206001204947101000021",
        4096,
    ),
    // CR, source 2048. CREF, destination 2048, cause 7, goes back.
    (
        "1-0-1",
        "010008000202000B1206001204947101000021",
        "1-0-1 030008000700",
        4096,
    ),
    // CC, destination 2, source 34. It goes on as CC, destination 0, source 1.
    (
        "2-0-1",
        "020200002200000200",
        "1-0-1 020000000100000200",
        4096,
    ),
    // RLSD, destination 1, source 0, cause 0. RLC, destination 0, source 1, goes back; RLSD, destination 34, source 2, goes
    // on.
    (
        "1-0-1",
        "040100000000000000",
        "1-0-1 05000000010000 2-0-1 042200000200000000",
        4095,
    ),
    // CR, source 2048, again: it is refused as before.
    (
        "1-0-1",
        "010008000202000B1206001204947101000021",
        "1-0-1 030008000700",
        4095,
    ),
    // RLC, destination 2, source 34.
    ("2-0-1", "05020000220000", "", 4094),
    // CR, source 2048, again. It goes on as CR, source 2.
    (
        "1-0-1",
        "010008000202000B1206001204947101000021",
        "2-0-1 010200000202000B5206001204947101000021",
        4096,
    ),
];

/// With 4,094 sections a request goes on, with 4,095 it is refused.
#[test]
fn sections_come_to_their_limit(rt: HostRuntime) -> Result<(), Fail> {
    assert_eq!(rt; wrong_line_then(rt.alloc(), &AT_THE_LIMIT)?, None);
    Ok(())
}
