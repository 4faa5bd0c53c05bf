//! The verdict on a message, by what was found.
ghost use Rattle.std.specs.Prelude.{◌≡◌, ◌<◌, false, length, IfOk, IfSome, unwrap_or};
ghost use Rattle.std.specs.List.{All};
ghost use Rattle.std.specs.Option.{option_and_then};
ghost use Rattle.relay_ways.specs.Alike.{calling_of};
ghost use Rattle.relay_watch.specs.Arrivals.{source, target};
ghost use Rattle.relay_watch.specs.Verdicts.{is_point, equipped, own_ssn, said_by, without_reason, of_unsent};
ghost use Rattle.relay_watch.specs.Kept.{is_unexplained};
ghost use Rattle.relay_watch.specs.Judging.{place_of, IsWithout, IsOfSent, IsVerdict};
ghost use Rattle.relay_watch.specs.Whys.{IsOfWaiting};
ghost use Rattle.relay_watch.specs.declared.verdict.Verdict.{Verdict};
ghost use Rattle.relay_watch.specs.declared.why.Why.{Why};

use crate::answered::Answered;
use crate::arriving::is_management;
use crate::captured::Captured;
use crate::event::Event;
use crate::found::Found;
use crate::relays::relay_at;
use crate::sent::Sent;
use crate::verdict::Verdict;
use crate::waiting::Waiting;
use crate::whys::why;
use plan_model::Plan;
use relay_ways::calling;
use sccp_address::Address;
use sccp_base::{OutOfMemory, PointCode};
use sccp_manage::StatusMessage;
use sccp_message::Message;
use std::alloc::Global;

/// Whether an address has no point code, or this one.
fn is_point(here: PointCode, pc: Option<PointCode>) -> bool
    ensures { result ≡ is_point here pc }
{
    match pc {
        Some(pc) => pc == here,
        None => true,
    }
}

/// The subsystem of the relay with this number.
fn equipped(plan: &Plan, node: u8, ssn: u8) -> Option<u8>
    requires { node < length plan.now.nodes }
    ensures { result ≡ equipped plan.now node ssn }
{
    if plan.nodes().as_slice()[usize::from(node)].is_equipped(ssn) {
        Some(ssn)
    } else {
        None
    }
}

/// The subsystem of the relay that a calling address names.
fn own_ssn(plan: &Plan, node: u8, calling: &Address) -> Option<u8>
    requires { node < length plan.now.nodes }
    ensures { result ≡ own_ssn plan.now node calling.now }
{
    if calling.by_ssn && is_point(plan.point_of(node), calling.pc) {
        match calling.ssn {
            Some(ssn) => equipped(plan, node, ssn),
            None => None,
        }
    } else {
        None
    }
}

/// The subsystem of the relay that sent the message, if a user of the relay did.
fn user(plan: &Plan, node: u8, message: &Message) -> Option<u8>
    requires { node < length plan.now.nodes }
    ensures { result ≡ option_and_then (own_ssn plan.now node) (calling_of message.now) }
{
    match calling(message) {
        Some(address) => own_ssn(plan, node, address),
        None => None,
    }
}

/// What a message for SCCP management says, if its type carries data of management.
fn said_by(message: &Message) -> Option<StatusMessage>
    ensures { result ≡ said_by message.now }
{
    match message {
        Message::Udt { payload, .. }
        | Message::Xudt { payload, .. }
        | Message::Ludt { payload, .. } => StatusMessage::read(payload.as_slice()),
        _ => None,
    }
}

/// The verdict on a message that management sent, or a user of the relay. `None` if the relay itself sent it.
fn of_another(plan: &Plan, node: u8, message: &Message, address: &Address) -> Option<Verdict>
    requires { node < length plan.now.nodes }
    ensures value { (why : Why) → unwrap_or result (Verdict.Unexplained why) ≡ without_reason plan.now node message.now address.now why }
    ensures known { IfSome result (λ v. is_unexplained v ≡ false) }
{
    if is_management(address) {
        return Some(Verdict::Management(said_by(message)));
    }
    match user(plan, node, message) {
        Some(ssn) => Some(Verdict::Own(ssn)),
        None => None,
    }
}

/// The verdict on a message that no arrival explains.
fn without_reason(
    alloc: Global,
    sent: &Sent<'_>,
    waiting: &[Waiting],
    answered: &[Answered],
    address: &Address,
) -> Result<Verdict, OutOfMemory>
    requires { All IsOfWaiting answered.now }
    ensures { IfOk result (IsWithout sent.now.plan.now waiting.now answered.now sent.now.node sent.now.to sent.now.message.now
        address.now) }
{
    match of_another(sent.plan, sent.node, sent.message, address) {
        Some(verdict) => Ok(verdict),
        None => {
            let cause = why(alloc, sent, waiting, answered)?;
            Ok(Verdict::Unexplained(cause))
        }
    }
}

/// The verdict on a message that no relay of the plan sent.
fn of_unsent(plan: &Plan, event: &Event, message: &Message, address: &Address) -> Verdict
    ensures { result ≡ of_unsent message.now address.now (target plan.now event.now) }
{
    match relay_at(plan, event.destination) {
        Some(_) => if is_management(address) {
            Verdict::Management(said_by(message))
        } else {
            Verdict::Arrived
        },
        None => Verdict::Other,
    }
}

/// The verdict on a message that an arrival explains.
fn of_found(found: Found) -> Verdict
    ensures { result ≡ Verdict.Explained found.by found.ways }
{
    let Found { by, ways, .. } = found;
    Verdict::Explained { by, ways }
}

/// The verdict on a message that a relay sent.
fn of_sent(
    alloc: Global,
    sent: &Sent<'_>,
    waiting: &[Waiting],
    answered: &[Answered],
    address: &Address,
    found: Option<Found>,
) -> Result<Verdict, OutOfMemory>
    requires { All IsOfWaiting answered.now }
    ensures { IfOk result (IsOfSent sent.now.plan.now waiting.now answered.now sent.now.node sent.now.to sent.now.message.now
        address.now found) }
{
    match found {
        Some(found) => Ok(of_found(found)),
        None => without_reason(alloc, sent, waiting, answered, address),
    }
}

/// The place of what was found.
pub(crate) fn place_of(found: &Option<Found>) -> Option<usize>
    ensures { result ≡ place_of found.now }
{
    match found {
        Some(found) => Some(found.place),
        None => None,
    }
}

/// The verdict on a captured message, by what was found.
pub(crate) fn verdict_by(
    alloc: Global,
    captured: &Captured<'_>,
    waiting: &[Waiting],
    answered: &[Answered],
    found: Option<Found>,
) -> Result<Verdict, OutOfMemory>
    requires { All IsOfWaiting answered.now }
    ensures { IfOk result (IsVerdict captured.now.plan.now waiting.now answered.now captured.now.event.now captured.now.message.now
        captured.now.address.now found (source captured.now.plan.now captured.now.event.now)) }
{
    match relay_at(captured.plan, captured.event.origin) {
        Some(node) => {
            let sent = Sent {
                plan: captured.plan,
                node,
                to: captured.event.destination,
                message: captured.message,
            };
            of_sent(alloc, &sent, waiting, answered, captured.address, found)
        }
        None => {
            drop(found);
            Ok(of_unsent(
                captured.plan,
                captured.event,
                captured.message,
                captured.address,
            ))
        }
    }
}
