//! The command that sends a message on over a link that carries no long messages (Q.714 section 4.1).
ghost use Rattle.std.specs.Prelude.{◌≡◌, ◌<◌, ◌++◌, [], IfOk, None, Ok, Err, OnOk, codes, false, length};
ghost use Rattle.std.specs.List.{flat_map};
ghost use Rattle.long_segments.specs.Sending.{is_memory};
ghost use Rattle.plan_model.specs.Network.{IsPlan};
ghost use Rattle.sccp_message.specs.Reading.{reading};
ghost use Rattle.sccp_message.specs.declared.fault.DecodeFault.{DecodeFault};
ghost use Rattle.sccp_message.specs.declared.message.Message.{Message};
ghost use Rattle.sccp_message.specs.Unitdata.{called_of};
ghost use Rattle.sccp_report.specs.MessageText.{undecodable_line};
ghost use Rattle.sccp_report.specs.Hops.{marks_text};
ghost use Rattle.sccp_report.specs.Values.{numbered};
ghost use Rattle.sccp_scrc.specs.Arriving.{arrival};
ghost use Rattle.sccp_tool.specs.Commands.{texts};
ghost use Rattle.sccp_work.specs.Ending.{Works};
ghost use Rattle.sccp_work.specs.Moment.{moment};
ghost use Rattle.sccp_tool.specs.Parsed.{task_in};
ghost use Rattle.sccp_tool.specs.SendOn.{IsOfOctets, arrival_lines, connection_line, first_line, incoming_of, leaving_lines, send_on_of};
ghost use Rattle.sccp_tool.specs.SendOn.{send_on_text, send_on_words, send_on_work, size_of, to_line, type_line, uncut_lines};

use crate::command::Command;
use long_segments::LongFault;
use plan_model::{Limits, Plan};
use sccp_base::{Marking, Name, Octets, OutOfMemory, PointCode, Reference, cut, decimal};
use sccp_io::{Files, Sink};
use sccp_plans::UNKNOWN_NODE;
use sccp_report::{Text, message_text, put_point_code};
use sccp_scrc::{Arrival, arrive};
use sccp_work::{PlanPath, Status, Stop, print_last, with_plan};
use std::alloc::Global;
use trace_text::{is_file_name, octets_of};

/// The reference of segments of a message that has none of its own.
const GIVEN_REFERENCE: u32 = 1;

/// Octets that arrive at the node of a name, and how many octets of data a segment of a long message may have.
#[derive(Drop)]
pub struct Incoming {
    pub node: Name,
    pub origin: PointCode,
    pub size: u8,
    pub octets: Octets,
}

/// The command of the words `PLAN NODE ORIGIN SIZE HEX`, or none if they have another shape.
#[tactic(auto, unfolding(crate::specs::SendOn::send_on_words))]
pub fn send_on_words<'a>(
    alloc: Global,
    limits: Limits,
    words: &'a [String],
) -> Result<Option<Command<'a>>, OutOfMemory>
    ensures { IfOk result (λ command. task_in command ≡ send_on_words limits (texts words.now)) }
{
    match words {
        [plan, node, origin, size, digits] => send_on_of(
            alloc,
            limits,
            plan.as_str(),
            node.as_str(),
            origin.as_str(),
            size.as_str(),
            digits.as_str(),
        ),
        _ => Ok(None),
    }
}

/// The command of these five words.
#[tactic(auto, unfolding(crate::specs::SendOn::send_on_of))]
fn send_on_of<'a>(
    alloc: Global,
    limits: Limits,
    plan: &'a str,
    node: &str,
    origin: &str,
    size: &str,
    digits: &str,
) -> Result<Option<Command<'a>>, OutOfMemory>
    ensures { IfOk result (λ command. task_in command ≡ send_on_of limits plan.now node.now origin.now size.now digits.now) }
{
    if !is_file_name(plan.as_bytes()) {
        return Ok(None);
    }
    match incoming_of(alloc, node, origin, size, digits)? {
        Some(incoming) => Ok(Some(Command::SendOn(PlanPath::new(plan, limits), incoming))),
        None => Ok(None),
    }
}

/// What four words spell, or none if one of them does not have its form.
#[tactic(auto, unfolding(crate::specs::SendOn::incoming_of))]
fn incoming_of(
    alloc: Global,
    node: &str,
    origin: &str,
    size: &str,
    digits: &str,
) -> Result<Option<Incoming>, OutOfMemory>
    ensures { IfOk result (λ incoming. incoming ≡ incoming_of node.now origin.now size.now digits.now) }
{
    let Some(node) = Name::parse(node.as_bytes()) else {
        return Ok(None);
    };
    let Some(origin) = PointCode::parse(origin.as_bytes()) else {
        return Ok(None);
    };
    let Some(size) = size_of(size.as_bytes()) else {
        return Ok(None);
    };
    match octets_of(alloc, digits.as_bytes())? {
        Some(octets) => Ok(Some(Incoming {
            node,
            origin,
            size,
            octets,
        })),
        None => Ok(None),
    }
}

/// A number from 1 to 255 of one to ten decimal digits.
fn size_of(word: &[u8]) -> Option<u8>
    ensures { result ≡ size_of word.now }
{
    match decimal(word, 10) {
        Some(value) if value > 0 && value < 256 => Some(value as u8),
        _ => None,
    }
}

/// Prints what becomes of octets at a relay of the plan of a file, which is read and not verified. A long message that leaves
/// the relay leaves it in segments.
pub fn send_on<F: Files, K: Sink>(
    alloc: Global,
    file: &PlanPath<'_>,
    incoming: &Incoming,
    files: &mut F,
    out: &mut K,
) -> Result<Status, Stop>
    ensures { Works (send_on_work file.now incoming.now) result
        (moment F.contents F.sound F.faults K.taken K.faults files.old out.old)
        (moment F.contents F.sound F.faults K.taken K.faults files.new out.new) }
{
    let plan = with_plan(alloc, file, files, out)?;
    let text = send_on_text(alloc, &plan, incoming);
    drop(plan);
    let text = text?;
    print_last(out, text.as_slice(), Status::Done)
}

/// What becomes of octets at a relay, or the line that no node has its name.
#[tactic(auto, unfolding(sccp_plans::specs::Texts::unknown_node))]
fn send_on_text(alloc: Global, plan: &Plan, incoming: &Incoming) -> Result<Octets, OutOfMemory>
    requires { IsPlan plan.now }
    ensures { IfOk result (λ text. text ≡ send_on_text plan.now incoming.now) }
{
    match plan.node_named(&incoming.node) {
        Some(node) => text_at(alloc, plan, node, incoming),
        None => Ok(Octets::from_vec(Vec::from_slice(alloc, UNKNOWN_NODE)?)),
    }
}

/// What becomes of octets at a node while nothing is prohibited.
fn text_at(alloc: Global, plan: &Plan, node: u8, incoming: &Incoming) -> Result<Octets, OutOfMemory>
    requires { node < length plan.now.nodes }
    ensures { IfOk result (λ text. text ≡ arrival_lines incoming.now.size
        (arrival plan.now node [] incoming.now.origin incoming.now.octets)) }
{
    let octets = incoming.octets.as_slice();
    let marking = Marking::new(alloc);
    let arrival = arrive(alloc, plan, node, &marking, incoming.origin, octets)?;
    let text = arrival_text(alloc, &arrival, octets, incoming.size);
    drop(arrival);
    text
}

/// The lines of an arrival of these octets.
fn arrival_text(
    alloc: Global,
    arrival: &Arrival,
    octets: &[u8],
    size: u8,
) -> Result<Octets, OutOfMemory>
    requires { IsOfOctets octets.now arrival.now }
    ensures { IfOk result (λ text. text ≡ arrival_lines size arrival.now) }
{
    let mut text = Text::new(alloc);
    put_arrival(alloc, &mut text, arrival, octets, size)?;
    Ok(text.into_octets())
}

/// Appends the lines of an arrival of these octets.
#[tactic(auto, unfolding(crate::specs::SendOn::arrival_lines))]
fn put_arrival(
    alloc: Global,
    text: &mut Text,
    arrival: &Arrival,
    octets: &[u8],
    size: u8,
) -> Result<(), OutOfMemory>
    requires { IsOfOctets octets.now arrival.now }
    ensures { OnOk result (text.new ≡ text.old ++ arrival_lines size arrival.now) }
{
    match arrival {
        Arrival::Relayed { pc, octets } => put_leaving(alloc, text, *pc, octets.as_slice(), size),
        Arrival::Ended { pc, octets, .. } => {
            put_leaving(alloc, text, *pc, octets.as_slice(), size)
        }
        Arrival::Local { ssn, .. } => put_local(text, *ssn),
        Arrival::Returned { cause, .. } => put_returned(text, *cause),
        Arrival::Connection(_) => put_connection(alloc, text, octets),
        Arrival::Management(_) => text.put(b"management\n"),
        Arrival::Undecodable(_) => put_undecodable(alloc, text, octets),
    }
}

/// Appends the lines of octets that leave for a point.
fn put_leaving(
    alloc: Global,
    text: &mut Text,
    pc: PointCode,
    octets: &[u8],
    size: u8,
) -> Result<(), OutOfMemory>
    ensures { OnOk result (text.new ≡ text.old ++ leaving_lines size pc octets.now) }
{
    let reference = Reference::new(GIVEN_REFERENCE).unwrap();
    match long_segments::send_on(alloc, octets, size, reference) {
        Ok(segments) => put_segments(text, pc, segments.as_slice()),
        Err(fault) => put_uncut(text, pc, octets, fault),
    }
}

/// Appends a line for each segment.
fn put_segments(text: &mut Text, pc: PointCode, segments: &[Octets]) -> Result<(), OutOfMemory>
    ensures { OnOk result (text.new ≡ text.old ++ flat_map (to_line pc) segments.now) }
{
    for segment in segments {
        put_to(text, pc, segment.as_slice())?;
    }
    Ok(())
}

/// Appends the line of octets that are not cut, or why they cannot be. Want of memory says nothing of them, and has no line.
#[tactic(auto, unfolding(crate::specs::SendOn::uncut_lines))]
fn put_uncut(
    text: &mut Text,
    pc: PointCode,
    octets: &[u8],
    fault: LongFault,
) -> Result<(), OutOfMemory>
    ensures lines { OnOk result (text.new ≡ text.old ++ uncut_lines pc octets.now fault) }
    ensures told { OnOk result (is_memory fault ≡ false) }
{
    match fault {
        LongFault::NotLong => put_to(text, pc, octets),
        LongFault::AlreadySegment => text.put(b"not split already segment\n"),
        LongFault::TooMany => text.put(b"not split too many\n"),
        LongFault::NotWritable(_) => text.put(b"not split not writable\n"),
        LongFault::ZeroSize => Ok(()),
        LongFault::OutOfMemory => Err(OutOfMemory),
    }
}

/// Appends the line of octets that go to a point.
#[tactic(auto, unfolding(crate::specs::SendOn::to_line))]
fn put_to(text: &mut Text, pc: PointCode, octets: &[u8]) -> Result<(), OutOfMemory>
    ensures { OnOk result (text.new ≡ text.old ++ to_line pc octets.now) }
{
    text.put(b"to ")?;
    put_point_code(text, pc)?;
    text.put(b" ")?;
    text.put_octets(octets)?;
    text.put(b"\n")
}

/// Appends the line of a message for a subsystem of the node.
fn put_local(text: &mut Text, ssn: u8) -> Result<(), OutOfMemory>
    ensures { OnOk result (text.new ≡ text.old ++ numbered (codes "local ") ssn ++ codes "\n") }
{
    text.put_numbered(b"local ", u32::from(ssn))?;
    text.put(b"\n")
}

/// Appends the line of a message that cannot be delivered. While nothing is prohibited no mark closes its way.
#[tactic(auto, unfolding(sccp_report::specs::Hops::marks_text))]
fn put_returned(text: &mut Text, cause: u8) -> Result<(), OutOfMemory>
    ensures { OnOk result (text.new ≡ text.old ++ numbered (codes "returned ") cause ++ codes " marks " ++ marks_text [] ++ codes "\n") }
{
    text.put_numbered(b"returned ", u32::from(cause))?;
    text.put(b" marks none\n")
}

/// Appends the line of a connection-oriented message, whose type is the first line of what is shown of it.
fn put_connection(alloc: Global, text: &mut Text, octets: &[u8]) -> Result<(), OutOfMemory>
    ensures { (m : Message) → reading octets.now ≡ Ok m → called_of m ≡ None → OnOk result (text.new ≡ text.old ++ connection_line m) }
{
    let shown = message_text(alloc, octets)?;
    put_type(text, first_line(shown.as_slice()))
}

/// Appends the line of a connection-oriented message of a type.
#[tactic(auto, unfolding(crate::specs::SendOn::type_line))]
fn put_type(text: &mut Text, name: &[u8]) -> Result<(), OutOfMemory>
    ensures { OnOk result (text.new ≡ text.old ++ type_line name.now) }
{
    text.put(b"connection ")?;
    text.put(name)?;
    text.put(b"\n")
}

/// The first line of a text.
#[tactic(auto, unfolding(crate::specs::SendOn::first_line))]
fn first_line(text: &[u8]) -> &[u8]
    ensures { result.now ≡ first_line text.now }
{
    match cut(text, b'\n') {
        Some((line, _)) => line,
        None => text,
    }
}

/// Appends the line on octets that are no message.
#[tactic(auto, unfolding(sccp_report::specs::MessageText::message_text))]
fn put_undecodable(alloc: Global, text: &mut Text, octets: &[u8]) -> Result<(), OutOfMemory>
    ensures { (fault : DecodeFault) → reading octets.now ≡ Err fault → OnOk result (text.new ≡ text.old ++ undecodable_line fault) }
{
    let shown = message_text(alloc, octets)?;
    text.put(shown.as_slice())
}
