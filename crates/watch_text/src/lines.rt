//! The line of a captured message.
ghost use Rattle.std.specs.Prelude.{◌≡◌, ◌++◌, [], OnOk};
ghost use Rattle.std.specs.Option.{option_map_or};
ghost use Rattle.watch_text.specs.Lines.{explained_words, verdict_words, packet_words, head, unanswered_line, line_text};

use crate::put::{put_number, put_point};
use crate::types::{
    put_connection_name, put_connection_word, put_management_word, put_status, put_unit_name,
};
use crate::ways::{put_ways, put_why};
use plan_model::Plan;
use relay_watch::{Event, Line, Unanswered, Verdict};
use relay_ways::Explanation;
use sccp_base::OutOfMemory;
use sccp_report::{Text, put_fault, put_node};

/// Appends which arrival explains the message, and in which ways.
#[tactic(auto, unfolding(crate::specs::Lines::explained_words))]
fn put_explained(text: &mut Text, by: u64, ways: &[Explanation]) -> Result<(), OutOfMemory>
    ensures { OnOk result (text.new ≡ text.old ++ explained_words by ways.now) }
{
    text.put(b" explained by ")?;
    put_number(text, by)?;
    text.put(b" ")?;
    put_ways(text, ways)
}

/// Appends what a message with these octets is to the relays of the plan.
#[tactic(auto, unfolding(crate::specs::Lines::verdict_words))]
fn put_verdict(text: &mut Text, octets: &[u8], verdict: &Verdict) -> Result<(), OutOfMemory>
    ensures { OnOk result (text.new ≡ text.old ++ verdict_words octets.now verdict.now) }
{
    match verdict {
        Verdict::Undecodable(fault) => {
            text.put(b"undecodable ")?;
            put_fault(text, *fault)
        }
        Verdict::Connection => {
            put_connection_word(text)?;
            put_connection_name(text, octets)
        }
        Verdict::Other => {
            put_unit_name(text, octets)?;
            text.put(b" other")
        }
        Verdict::Arrived => put_unit_name(text, octets),
        Verdict::Explained { by, ways } => {
            put_unit_name(text, octets)?;
            put_explained(text, *by, ways.as_slice())
        }
        Verdict::Management(status) => {
            put_management_word(text)?;
            put_status(text, status)
        }
        Verdict::Own(ssn) => {
            put_unit_name(text, octets)?;
            text.put(b" own ")?;
            text.put_number(u32::from(*ssn))
        }
        Verdict::Unexplained(why) => {
            put_unit_name(text, octets)?;
            text.put(b" unexplained ")?;
            put_why(text, *why)
        }
    }
}

/// Appends the number of the packet that had the message, if it is of a capture.
#[tactic(auto, unfolding(crate::specs::Lines::packet_words))]
fn put_packet(text: &mut Text, packet: Option<u64>) -> Result<(), OutOfMemory>
    ensures { OnOk result (text.new ≡ text.old ++ packet_words packet) }
{
    match packet {
        Some(packet) => {
            text.put(b" packet ")?;
            put_number(text, packet)
        }
        None => Ok(()),
    }
}

/// Appends the number of a message, and the points between which it went.
#[tactic(auto, unfolding(crate::specs::Lines::head))]
fn put_head(
    text: &mut Text,
    plan: &Plan,
    packet: Option<u64>,
    event: &Event,
) -> Result<(), OutOfMemory>
    ensures { OnOk result (text.new ≡ text.old ++ head plan.now packet event.now) }
{
    put_number(text, event.number)?;
    put_packet(text, packet)?;
    text.put(b" from ")?;
    put_point(text, plan, event.origin)?;
    text.put(b" to ")?;
    put_point(text, plan, event.destination)?;
    text.put(b" ")
}

/// Appends the line of an arrival that nothing answered.
#[tactic(auto, unfolding(crate::specs::Lines::unanswered_line))]
pub fn put_unanswered(text: &mut Text, plan: &Plan, one: &Unanswered) -> Result<(), OutOfMemory>
    ensures { OnOk result (text.new ≡ text.old ++ unanswered_line plan.now one.now) }
{
    put_number(text, one.number)?;
    text.put(b" unanswered at ")?;
    put_node(text, plan, one.node)?;
    text.put(b"\n")
}

fn put_unanswered_if_any(
    text: &mut Text,
    plan: &Plan,
    one: &Option<Unanswered>,
) -> Result<(), OutOfMemory>
    ensures { OnOk result (text.new ≡ text.old ++ option_map_or (unanswered_line plan.now) one.now []) }
{
    match one {
        Some(one) => put_unanswered(text, plan, one),
        None => Ok(()),
    }
}

/// Appends the line of a message, and of the arrival that is given up with it if nothing answered that. `packet` is the number of the
/// packet that had the message, if it is of a capture. After an error the end of the text is not specified.
#[tactic(auto, unfolding(crate::specs::Lines::line_text))]
pub fn put_line(
    text: &mut Text,
    plan: &Plan,
    packet: Option<u64>,
    event: &Event,
    line: &Line,
) -> Result<(), OutOfMemory>
    ensures { OnOk result (text.new ≡ text.old ++ line_text plan.now packet event.now line.now) }
{
    put_head(text, plan, packet, event)?;
    put_verdict(text, event.octets.as_slice(), &line.verdict)?;
    text.put(b"\n")?;
    put_unanswered_if_any(text, plan, &line.unanswered)
}
