//! The text of a message that was routed.
ghost use Rattle.std.specs.Prelude.{◌≡◌, ◌++◌, IfOk, OnOk};
ghost use Rattle.sccp_report.specs.Served.{data_of, local_words, returned_words, end_words, journey_line, served_text};
ghost use Rattle.sccp_report.specs.Values.{octets_text};

use crate::back::{put_back, put_ended};
use crate::mark::put_marks;
use crate::node::put_path;
use crate::segment::put_segments;
use crate::sent::put_sent_lines;
use crate::text::Text;
use plan_model::Plan;
use relay_net::{Back, End, Journey, Outcome, Served};
use sccp_base::{Boxed, List, Mark, Octets, OutOfMemory};
use sccp_message::Message;
use std::alloc::Global;

// The data of a message, if its type has any.
fn put_data_of(text: &mut Text, message: &Message) -> Result<(), OutOfMemory>
    ensures { OnOk result (text.new ≡ text.old ++ octets_text (data_of message.now)) }
{
    match message.payload() {
        Some(payload) => text.put_octets(payload.as_slice()),
        None => text.put_octets(&[]),
    }
}

// A message that is for a subsystem of its last node.
#[tactic(auto, unfolding(crate::specs::Served::local_words))]
fn put_local(
    text: &mut Text,
    ssn: u8,
    message: &Message,
    outcomes: &[Outcome],
) -> Result<(), OutOfMemory>
    ensures { OnOk result (text.new ≡ text.old ++ local_words ssn message.now outcomes.now) }
{
    text.put_numbered(b" local ", u32::from(ssn))?;
    text.put(b" data ")?;
    put_data_of(text, message)?;
    put_segments(text, outcomes)
}

// A message that cannot be delivered.
#[tactic(auto, unfolding(crate::specs::Served::returned_words))]
fn put_returned(
    text: &mut Text,
    plan: &Plan,
    cause: u8,
    marks: &[Mark],
    back: &Option<Boxed<Back>>,
) -> Result<(), OutOfMemory>
    ensures { OnOk result (text.new ≡ text.old ++ returned_words plan.now cause marks.now back.now) }
{
    text.put_numbered(b" returned ", u32::from(cause))?;
    text.put(b" marks ")?;
    put_marks(text, marks)?;
    put_back(text, plan, back)
}

// How a journey ends. That of a message that is routed ends in one of the first four ways.
#[tactic(auto, unfolding(crate::specs::Served::end_words))]
fn put_end(
    text: &mut Text,
    plan: &Plan,
    journey: &Journey,
    outcomes: &[Outcome],
) -> Result<(), OutOfMemory>
    ensures { OnOk result (text.new ≡ text.old ++ end_words plan.now journey.now.back outcomes.now journey.now.end) }
{
    match &journey.end {
        End::Ended { pc, ssn, octets } => put_ended(text, *pc, *ssn, octets.as_slice()),
        End::Local { ssn, message } => put_local(text, *ssn, message.get(), outcomes),
        End::Returned { cause, marks } => {
            put_returned(text, plan, *cause, marks.as_slice(), &journey.back)
        }
        End::Cut => text.put(b" cut"),
        End::Connection(_) => Ok(()),
        End::Management(_) => Ok(()),
        End::Undecodable(_) => Ok(()),
    }
}

// The line of the message itself.
#[tactic(auto, unfolding(crate::specs::Served::journey_line))]
fn put_journey_line(
    text: &mut Text,
    plan: &Plan,
    line: u32,
    served: &Served,
    outcomes: &[Outcome],
) -> Result<(), OutOfMemory>
    ensures { OnOk result (text.new ≡ text.old ++ journey_line plan.now line served.now.number served.now.journey outcomes.now) }
{
    text.put_number(line)?;
    text.put_numbered(b" by ", served.number)?;
    text.put(b" via ")?;
    put_path(text, plan, served.journey.path.as_slice())?;
    put_end(text, plan, &served.journey, outcomes)?;
    text.put(b"\n")
}

/// Appends the text that `served_text` gives.
pub fn put_served(
    text: &mut Text,
    plan: &Plan,
    line: u32,
    served: &Served,
    outcomes: &List<Outcome>,
) -> Result<(), OutOfMemory>
    ensures { OnOk result (text.new ≡ text.old ++ served_text plan.now line served.now.number served.now.journey outcomes.now) }
{
    put_journey_line(text, plan, line, served, outcomes.as_slice())?;
    put_sent_lines(text, line, outcomes.as_slice())
}

/// The text of a message that was routed: the number of its line in the trace and of its plan, the names of the relays
/// that it reached, and its end. With the end is what it left at a node (`outcomes`). After it follows a line for each
/// message that was sent.
///
/// A message that is routed ends at a place, at a subsystem of its last node, as returned or as cut off. Another end has
/// no words, nor has a place of the path that is no node of the plan.
pub fn served_text(
    alloc: Global,
    plan: &Plan,
    line: u32,
    served: &Served,
    outcomes: &List<Outcome>,
) -> Result<Octets, OutOfMemory>
    ensures { IfOk result (λ text. text ≡ served_text plan.now line served.now.number served.now.journey outcomes.now) }
{
    let mut text = Text::new(alloc);
    put_served(&mut text, plan, line, served, outcomes)?;
    Ok(text.into_octets())
}
