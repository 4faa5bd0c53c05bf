//! The command that makes one connection over the relays of a plan (Q.714 section 3).
ghost use Rattle.std.specs.Prelude.{◌≡◌, ◌<◌, ◌++◌, IfOk, OnOk, length};
ghost use Rattle.std.specs.List.{flat_map};
ghost use Rattle.sccp_tool.specs.Commands.{texts};
ghost use Rattle.sccp_tool.specs.Connect.{call_of, call_text, calling_of, connect_of, connect_text, connect_words, connect_work};
ghost use Rattle.sccp_tool.specs.Connect.{is_unsaid, names_text, next_name, octets_line, opened_line, outcome_text, sections_line, ssn_in};
ghost use Rattle.sccp_tool.specs.Connect.{through_lines};
ghost use Rattle.sccp_work.specs.Ending.{Works};
ghost use Rattle.sccp_work.specs.Moment.{moment};
ghost use Rattle.sccp_tool.specs.Parsed.{task_in};
ghost use Rattle.sccp_work.specs.Writing.{Writes};

use crate::command::Command;
use chain_call::{Call, Outcome, Through};
use plan_model::{Limits, Plan};
use sccp_base::{Name, Octets, OutOfMemory, PointCode};
use sccp_io::{Files, Sink};
use sccp_message::CauseTable;
use sccp_plans::{Start, StartWords, UNKNOWN_NODE, start_of};
use sccp_report::{Text, put_cause, put_point_code};
use sccp_work::{PlanPath, Status, Stop, if_accepted, print_last, with_plan};
use std::alloc::Global;
use trace_text::{is_file_name, octets_of};

/// The line on an end whose point is a node's.
const END_IS_NODE: &[u8] = b"end is a node\n";

/// The connection that is asked for: the called title and the relay that the request goes to, the point of the calling end,
/// and the octets that are sent.
#[derive(Drop)]
pub struct Calling {
    pub start: Start,
    pub from: PointCode,
    pub octets: Octets,
}

/// The command of the words `PLAN NODE FROM SELECTOR SSN DIGITS HEX`, or none if they have another shape.
#[tactic(auto, unfolding(crate::specs::Connect::connect_words))]
pub fn connect_words<'a>(
    alloc: Global,
    limits: Limits,
    words: &'a [String],
) -> Result<Option<Command<'a>>, OutOfMemory>
    ensures { IfOk result (λ command. task_in command ≡ connect_words limits (texts words.now)) }
{
    match words {
        [plan, node, from, selector, ssn, digits, octets] => {
            let start = StartWords {
                node: node.as_str(),
                selector: selector.as_str(),
                ssn: ssn.as_str(),
                digits: digits.as_str(),
            };
            connect_of(
                alloc,
                limits,
                plan.as_str(),
                &start,
                from.as_str(),
                octets.as_str(),
            )
        }
        _ => Ok(None),
    }
}

/// The command of these seven words.
#[tactic(auto, unfolding(crate::specs::Connect::connect_of))]
fn connect_of<'a>(
    alloc: Global,
    limits: Limits,
    plan: &'a str,
    start: &StartWords<'_>,
    from: &str,
    octets: &str,
) -> Result<Option<Command<'a>>, OutOfMemory>
    ensures { IfOk result (λ command. task_in command
        ≡ connect_of limits plan.now start.now.node.now from.now start.now.selector.now start.now.ssn.now start.now.digits.now octets.now) }
{
    if !is_file_name(plan.as_bytes()) {
        return Ok(None);
    }
    match calling_of(alloc, start, from, octets)? {
        Some(calling) => Ok(Some(Command::Connect(PlanPath::new(plan, limits), calling))),
        None => Ok(None),
    }
}

/// What six words spell, or none if one of them does not have its form.
#[tactic(auto, unfolding(crate::specs::Connect::calling_of))]
fn calling_of(
    alloc: Global,
    start: &StartWords<'_>,
    from: &str,
    octets: &str,
) -> Result<Option<Calling>, OutOfMemory>
    ensures { IfOk result (λ calling. calling
        ≡ calling_of start.now.node.now from.now start.now.selector.now start.now.ssn.now start.now.digits.now octets.now) }
{
    let Some(start) = start_of(start) else {
        return Ok(None);
    };
    if is_unsaid(&start) {
        return Ok(None);
    }
    let Some(from) = PointCode::parse(from.as_bytes()) else {
        return Ok(None);
    };
    match octets_of(alloc, octets.as_bytes())? {
        Some(octets) => Ok(Some(Calling {
            start,
            from,
            octets,
        })),
        None => Ok(None),
    }
}

/// Whether the title is of kind 2, which cannot say that its number of digits is odd, and has such a number.
fn is_unsaid(start: &Start) -> bool
    ensures { result ≡ is_unsaid start.now }
{
    start.selector.kind() == 2 && start.digits.as_slice().len() % 2 == 1
}

/// Makes a connection over the relays of the plan of a file, which is verified first, and prints the outcome.
pub fn connect<F: Files, K: Sink>(
    alloc: Global,
    file: &PlanPath<'_>,
    calling: &Calling,
    files: &mut F,
    out: &mut K,
) -> Result<Status, Stop>
    ensures { Works (connect_work file.now calling.now) result
        (moment F.contents F.sound F.faults K.taken K.faults files.old out.old)
        (moment F.contents F.sound F.faults K.taken K.faults files.new out.new) }
{
    let plan = with_plan(alloc, file, files, out)?;
    let accepted = if_accepted(alloc, b"", plan, out)?;
    connect_accepted(alloc, accepted.into_plan(), calling, out)
}

/// Makes the connection over a plan that was accepted, and prints its outcome.
fn connect_accepted<K: Sink>(
    alloc: Global,
    plan: Plan,
    calling: &Calling,
    out: &mut K,
) -> Result<Status, Stop>
    ensures text { Writes (connect_text plan calling.now) result (K.taken out.old) (K.taken out.new) (K.faults out.old) (K.faults out.new) }
    ensures answer { IfOk result (λ s. s ≡ Status.Done) }
{
    let text = connect_text(alloc, plan, calling)?;
    print_last(out, text.as_slice(), Status::Done)
}

/// The outcome of the connection, or the line that no node has the name or that a node has the end's point.
#[tactic(auto, unfolding(sccp_plans::specs::Texts::unknown_node, crate::specs::Connect::end_is_node))]
fn connect_text(alloc: Global, plan: Plan, calling: &Calling) -> Result<Octets, OutOfMemory>
    ensures { IfOk result (λ text. text ≡ connect_text plan calling.now) }
{
    let Some(node) = plan.node_named(&calling.start.node) else {
        drop(plan);
        return Ok(Octets::from_vec(Vec::from_slice(alloc, UNKNOWN_NODE)?));
    };
    match plan.node_at(calling.from) {
        Some(_) => {
            drop(plan);
            Ok(Octets::from_vec(Vec::from_slice(alloc, END_IS_NODE)?))
        }
        None => call_text(alloc, plan, node, calling),
    }
}

/// The outcome of the connection.
fn call_text(alloc: Global, plan: Plan, node: u8, calling: &Calling) -> Result<Octets, OutOfMemory>
    requires { node < length plan.nodes }
    ensures { IfOk result (λ text. text ≡ call_text plan node calling.now) }
{
    match call_of(alloc, &plan, node, calling) {
        Ok(call) => {
            let outcome = chain_call::connect(alloc, plan, &call)?;
            outcome_text(alloc, &outcome)
        }
        Err(fault) => {
            drop(plan);
            Err(fault)
        }
    }
}

/// The connection that is asked for.
fn call_of(alloc: Global, plan: &Plan, node: u8, calling: &Calling) -> Result<Call, OutOfMemory>
    requires { node < length plan.now.nodes }
    ensures { IfOk result (λ call. call ≡ call_of plan.now node calling.now) }
{
    let octets = calling.octets.try_clone(alloc)?;
    Ok(Call {
        from: calling.from,
        entry: plan.nodes().as_slice()[usize::from(node)].pc,
        selector: calling.start.selector,
        digits: calling.start.digits,
        ssn: ssn_in(calling.start.ssn),
        octets,
    })
}

/// A subsystem number, if there is one.
fn ssn_in(ssn: u8) -> Option<u8>
    ensures { result ≡ ssn_in ssn }
{
    if ssn == 0 { None } else { Some(ssn) }
}

/// The lines of an outcome.
fn outcome_text(alloc: Global, outcome: &Outcome) -> Result<Octets, OutOfMemory>
    ensures { IfOk result (λ text. text ≡ outcome_text outcome.now) }
{
    let mut text = Text::new(alloc);
    put_outcome(&mut text, outcome)?;
    Ok(text.into_octets())
}

/// Appends the lines of an outcome.
#[tactic(auto, unfolding(crate::specs::Connect::outcome_text, crate::specs::Connect::unsettled_line))]
fn put_outcome(text: &mut Text, outcome: &Outcome) -> Result<(), OutOfMemory>
    ensures { OnOk result (text.new ≡ text.old ++ outcome_text outcome.now) }
{
    match outcome {
        Outcome::Unsettled => text.put(b"unsettled\n"),
        Outcome::Unanswered => text.put(b"unanswered\n"),
        Outcome::Refused(cause) => put_cause(text, b"refused ", CauseTable::Refusal, *cause),
        Outcome::Opened(names, far, through) => {
            put_opened(text, names.as_slice(), *far)?;
            put_through(text, through)
        }
    }
}

/// Appends the line of a connection that was open.
#[tactic(auto, unfolding(crate::specs::Connect::opened_line))]
fn put_opened(text: &mut Text, names: &[Name], far: PointCode) -> Result<(), OutOfMemory>
    ensures { OnOk result (text.new ≡ text.old ++ opened_line names.now far) }
{
    text.put(b"opened via ")?;
    put_names(text, names)?;
    text.put(b" to ")?;
    put_point_code(text, far)?;
    text.put(b"\n")
}

/// Appends names with commas between them.
#[tactic(auto, unfolding(crate::specs::Connect::names_text))]
fn put_names(text: &mut Text, names: &[Name]) -> Result<(), OutOfMemory>
    ensures { OnOk result (text.new ≡ text.old ++ names_text names.now) }
{
    match names {
        [] => Ok(()),
        [first, rest @ ..] => {
            text.put(first.as_slice())?;
            put_next_names(text, rest)
        }
    }
}

/// Appends names, each after a comma.
fn put_next_names(text: &mut Text, names: &[Name]) -> Result<(), OutOfMemory>
    ensures { OnOk result (text.new ≡ text.old ++ flat_map next_name names.now) }
{
    for name in names {
        put_next_name(text, name)?;
    }
    Ok(())
}

#[tactic(auto, unfolding(crate::specs::Connect::next_name))]
fn put_next_name(text: &mut Text, name: &Name) -> Result<(), OutOfMemory>
    ensures { OnOk result (text.new ≡ text.old ++ next_name name.now) }
{
    text.put(b",")?;
    text.put(name.as_slice())
}

/// Appends what went over a connection.
#[tactic(auto, unfolding(crate::specs::Connect::through_lines, crate::specs::Connect::unsettled_line))]
fn put_through(text: &mut Text, through: &Option<Through>) -> Result<(), OutOfMemory>
    ensures { OnOk result (text.new ≡ text.old ++ through_lines through.now) }
{
    match through {
        None => text.put(b"unsettled\n"),
        Some(through) => {
            put_octets(text, b"forth ", through.forth.as_slice())?;
            put_octets(text, b"back ", through.back.as_slice())?;
            put_sections(text, through.sections)
        }
    }
}

/// Appends a line of octets.
#[tactic(auto, unfolding(crate::specs::Connect::octets_line))]
fn put_octets(text: &mut Text, name: &[u8], octets: &[u8]) -> Result<(), OutOfMemory>
    ensures { OnOk result (text.new ≡ text.old ++ octets_line name.now octets.now) }
{
    text.put(name)?;
    text.put_octets(octets)?;
    text.put(b"\n")
}

/// Appends how many connection sections are left.
#[tactic(auto, unfolding(crate::specs::Connect::sections_line))]
fn put_sections(text: &mut Text, count: u32) -> Result<(), OutOfMemory>
    ensures { OnOk result (text.new ≡ text.old ++ sections_line count) }
{
    text.put_numbered(b"sections ", count)?;
    text.put(b"\n")
}
