//! The text of a line of a trace that is neither a later plan nor a message that is routed.
ghost use Rattle.std.specs.Prelude.{◌≡◌, ◌++◌, codes, IfOk, OnOk};
ghost use Rattle.std.specs.Option.{option_and_then, option_copied};
ghost use Rattle.sccp_manage.specs.Statuses.{status_of};
ghost use Rattle.sccp_message.specs.Reading.{reading};
ghost use Rattle.sccp_report.specs.Roles.{named, management_data};
ghost use Rattle.sccp_report.specs.Events.{connection_words, kind_word, status_words, management_words, coupling_words, message_words};
ghost use Rattle.sccp_report.specs.Events.{message_line, at_node, point_words, ssn_words, tick_words, node_in, line_words, event_line};
ghost use Rattle.sccp_report.specs.Events.{event_text};

use crate::mark::put_destination;
use crate::message_parts::management_data;
use crate::report::put_undecodable;
use crate::sent::put_sent_lines;
use crate::text::Text;
use crate::values::put_point_code;
use plan_model::Plan;
use relay_net::Outcome;
use sccp_base::{List, Name, Octets, OutOfMemory, PointCode};
use sccp_manage::{StatusKind, StatusMessage};
use sccp_message::{DecodeFault, Message, decode};
use std::alloc::Global;
use trace_text::{Line, Numbered};

// The name of a connection-oriented type, a line for each.
macro_rules! by_type {
    ($text:ident, $message:ident; $($variant:ident $name:literal)*) => {
        match $message {
            $(Message::$variant { .. } => $text.put($name),)*
            _ => Ok(()),
        }
    };
}

// The type of a connection-oriented message.
#[tactic(auto, unfolding(crate::specs::Events::connection_words))]
fn put_connection(text: &mut Text, message: &Message) -> Result<(), OutOfMemory>
    ensures { OnOk result (text.new ≡ text.old ++ connection_words message.now) }
{
    by_type! { text, message;
        Cr b" CR"
        Cc b" CC"
        Cref b" CREF"
        Rlsd b" RLSD"
        Rlc b" RLC"
        Dt1 b" DT1"
        Dt2 b" DT2"
        Ak b" AK"
        Ed b" ED"
        Ea b" EA"
        Rsr b" RSR"
        Rsc b" RSC"
        Err b" ERR"
        It b" IT"
    }
}

#[tactic(auto, unfolding(crate::specs::Events::kind_word))]
fn put_kind(text: &mut Text, kind: StatusKind) -> Result<(), OutOfMemory>
    ensures { OnOk result (text.new ≡ text.old ++ kind_word kind) }
{
    text.put(match kind {
        StatusKind::Allowed => b"ssa",
        StatusKind::Prohibited => b"ssp",
        StatusKind::Test => b"sst",
        StatusKind::OutOfServiceRequest => b"sor",
        StatusKind::OutOfServiceGrant => b"sog",
        StatusKind::Congested => b"ssc",
    })
}

// What a message for management says of which subsystem.
#[tactic(auto, unfolding(crate::specs::Events::status_words))]
fn put_status(text: &mut Text, status: Option<StatusMessage>) -> Result<(), OutOfMemory>
    ensures { OnOk result (text.new ≡ text.old ++ status_words status) }
{
    match status {
        Some(status) => {
            text.put(b" ")?;
            put_kind(text, status.kind)?;
            text.put(b" ")?;
            put_destination(text, status.pc, status.ssn)
        }
        None => text.put(b" unknown"),
    }
}

// The status message that a message for management is. A service message is none.
fn put_status_in(text: &mut Text, message: &Message) -> Result<(), OutOfMemory>
    ensures { OnOk result (text.new ≡ text.old ++ status_words (option_and_then status_of (management_data message.now))) }
{
    match management_data(message) {
        Some(payload) => put_status(text, StatusMessage::read(payload.as_slice())),
        None => put_status(text, None),
    }
}

#[tactic(auto, unfolding(crate::specs::Events::management_words))]
fn put_management(text: &mut Text, message: &Message) -> Result<(), OutOfMemory>
    ensures { OnOk result (text.new ≡ text.old ++ management_words message.now) }
{
    text.put(b"management")?;
    put_status_in(text, message)
}

#[tactic(auto, unfolding(crate::specs::Events::coupling_words))]
fn put_coupling(text: &mut Text, message: &Message) -> Result<(), OutOfMemory>
    ensures { OnOk result (text.new ≡ text.old ++ coupling_words message.now) }
{
    text.put(b"connection")?;
    put_connection(text, message)
}

// A message that is not routed: a connectionless one is for management.
#[tactic(auto, unfolding(crate::specs::Events::message_words))]
fn put_message(text: &mut Text, message: &Message) -> Result<(), OutOfMemory>
    ensures { OnOk result (text.new ≡ text.old ++ message_words message.now) }
{
    if message.is_connectionless() {
        return put_management(text, message);
    }
    put_coupling(text, message)
}

/// Appends the words for a message, to the end of the line.
fn put_words_line(text: &mut Text, message: &Message) -> Result<(), OutOfMemory>
    ensures { OnOk result (text.new ≡ text.old ++ codes " " ++ message_words message.now ++ codes "\n") }
{
    text.put(b" ")?;
    put_message(text, message)?;
    text.put(b"\n")
}

#[tactic(auto, unfolding(crate::specs::Events::message_line))]
fn put_message_line(alloc: Global, text: &mut Text, octets: &[u8]) -> Result<(), OutOfMemory>
    ensures { OnOk result (text.new ≡ text.old ++ message_line (reading octets.now)) }
{
    match decode(alloc, octets) {
        Ok(message) => {
            let told = put_words_line(text, &message);
            drop(message);
            told
        }
        Err(DecodeFault::OutOfMemory) => Err(OutOfMemory),
        Err(fault) => {
            text.put(b" ")?;
            put_undecodable(text, fault)
        }
    }
}

// A word of the trace, the name of a node, and a point.
#[tactic(auto, unfolding(crate::specs::Events::point_words))]
fn put_point(text: &mut Text, verb: &[u8], name: &Name, pc: PointCode) -> Result<(), OutOfMemory>
    ensures { OnOk result (text.new ≡ text.old ++ point_words verb.now name.now pc) }
{
    text.put(verb)?;
    text.put(name.as_slice())?;
    text.put(b" ")?;
    put_point_code(text, pc)?;
    text.put(b"\n")
}

// A word of the trace, the name of a node, and a subsystem.
#[tactic(auto, unfolding(crate::specs::Events::ssn_words))]
fn put_ssn(text: &mut Text, verb: &[u8], name: &Name, ssn: u8) -> Result<(), OutOfMemory>
    ensures { OnOk result (text.new ≡ text.old ++ ssn_words verb.now name.now ssn) }
{
    text.put(verb)?;
    text.put(name.as_slice())?;
    text.put_numbered(b" ", u32::from(ssn))?;
    text.put(b"\n")
}

#[tactic(auto, unfolding(crate::specs::Events::tick_words))]
fn put_tick(text: &mut Text, name: &Name) -> Result<(), OutOfMemory>
    ensures { OnOk result (text.new ≡ text.old ++ tick_words name.now) }
{
    text.put(b" tick ")?;
    text.put(name.as_slice())?;
    text.put(b"\n")
}

// The name of the node that a line is about.
fn node_in(line: &Line) -> Option<&Name>
    ensures { option_copied result ≡ node_in line.now }
{
    match line {
        Line::Msg { node, .. } => Some(node),
        Line::Pause(node, _) => Some(node),
        Line::Resume(node, _) => Some(node),
        Line::NoSccp(node, _) => Some(node),
        Line::Up(node, _) => Some(node),
        Line::Down(node, _) => Some(node),
        Line::Tick(node) => Some(node),
        Line::Plan(_) | Line::Fence | Line::Skip => None,
    }
}

// What is printed of a line after its number.
#[tactic(auto, unfolding(crate::specs::Events::line_words))]
fn put_line_words(alloc: Global, text: &mut Text, line: &Line) -> Result<(), OutOfMemory>
    ensures { OnOk result (text.new ≡ text.old ++ line_words line.now) }
{
    match line {
        Line::Msg { octets, .. } => put_message_line(alloc, text, octets.as_slice()),
        Line::Pause(node, pc) => put_point(text, b" pause ", node, *pc),
        Line::Resume(node, pc) => put_point(text, b" resume ", node, *pc),
        Line::NoSccp(node, pc) => put_point(text, b" no-sccp ", node, *pc),
        Line::Up(node, ssn) => put_ssn(text, b" up ", node, *ssn),
        Line::Down(node, ssn) => put_ssn(text, b" down ", node, *ssn),
        Line::Tick(node) => put_tick(text, node),
        Line::Plan(_) => Ok(()),
        Line::Fence => Ok(()),
        Line::Skip => Ok(()),
    }
}

// The number of a line and what is printed of it, or that no node of the plan has the name.
#[tactic(auto, unfolding(crate::specs::Events::at_node))]
fn put_at_node(
    alloc: Global,
    text: &mut Text,
    plan: &Plan,
    name: &Name,
    line: &Numbered,
) -> Result<(), OutOfMemory>
    ensures { OnOk result (text.new ≡ text.old ++ at_node (named plan.now name.now) line.now.number (line_words line.now.line)) }
{
    text.put_number(line.number)?;
    match plan.node_named(name) {
        Some(_) => put_line_words(alloc, text, &line.line),
        None => text.put(b" unknown node\n"),
    }
}

#[tactic(auto, unfolding(crate::specs::Events::event_line))]
fn put_event_line(
    alloc: Global,
    text: &mut Text,
    plan: &Plan,
    line: &Numbered,
) -> Result<(), OutOfMemory>
    ensures { OnOk result (text.new ≡ text.old ++ event_line plan.now line.now.number (node_in line.now.line) (line_words line.now.line)) }
{
    match node_in(&line.line) {
        Some(name) => put_at_node(alloc, text, plan, name, line),
        None => Ok(()),
    }
}

/// Appends the text that `event_text` gives.
pub fn put_event(
    alloc: Global,
    text: &mut Text,
    plan: &Plan,
    line: &Numbered,
    outcomes: &List<Outcome>,
) -> Result<(), OutOfMemory>
    ensures { OnOk result (text.new ≡ text.old ++ event_text plan.now line.now outcomes.now) }
{
    put_event_line(alloc, text, plan, line)?;
    put_sent_lines(text, line.number, outcomes.as_slice())
}

/// The text of a line of a trace that is neither a later plan nor a message that is routed. It has the line's number and
/// its words, or says that the plan has no node of that name. After it follows a line for each message that was sent
/// because of it (`outcomes`).
///
/// A fence and a skipped line have no text. The line of a later plan has none here, since its text says more than the
/// line.
pub fn event_text(
    alloc: Global,
    plan: &Plan,
    line: &Numbered,
    outcomes: &List<Outcome>,
) -> Result<Octets, OutOfMemory>
    ensures { IfOk result (λ text. text ≡ event_text plan.now line.now outcomes.now) }
{
    let mut text = Text::new(alloc);
    put_event(alloc, &mut text, plan, line, outcomes)?;
    Ok(text.into_octets())
}
