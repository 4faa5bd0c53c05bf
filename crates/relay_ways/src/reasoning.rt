//! Why an arrival does not explain a message.
ghost use Rattle.std.specs.Prelude.{◌≡◌, true, if◌then◌else◌, Some, IfOk};
ghost use Rattle.std.specs.List.{filter, list_any};
ghost use Rattle.sccp_message.specs.Unitdata.{called_of};
ghost use Rattle.relay_ways.specs.Alike.{calling_of, params_of};
ghost use Rattle.relay_ways.specs.WhyNot.{later, by_point, title_fault, by_title, by_address, by_called, by_message, by_candidate};
ghost use Rattle.relay_ways.specs.WhyNot.{by_candidates, by_contents, same_calling, same_params, service_code, is_service, has_cause};
ghost use Rattle.relay_ways.specs.WhyNot.{by_service, by_type};
ghost use Rattle.relay_ways.specs.WhyNot.{why_not_of, why_not};

use crate::alike::{
    calling, code, have_same_params, number, same_address, same_called_title, same_flag,
    same_number, same_point,
};
use crate::candidate::Candidate;
use crate::incoming::Incoming;
use crate::reason::Reason;
use crate::would_send::candidates;
use sccp_address::{Address, Title};
use sccp_base::{OutOfMemory, PointCode};
use sccp_message::{DecodeFault, Message, decode};
use sccp_scrc::asks_for_return;
use std::alloc::Global;

/// The later one of two, and of equal ones the first.
fn later(a: Reason, b: Reason) -> Reason
    ensures { result ≡ later a b }
{
    if a.rank() < b.rank() { b } else { a }
}

/// The fault of a point code.
fn by_point(to: PointCode, a: &Address, b: &Address) -> Reason
    ensures { result ≡ by_point to a.now b.now }
{
    if same_point(to, a.pc, b.pc) {
        Reason::Closed
    } else {
        Reason::CalledPoint
    }
}

/// The fault of two titles that differ.
fn title_fault(a: &Title, b: &Title) -> Reason
    ensures { result ≡ title_fault a.now b.now }
{
    match a {
        Title::Global { selector, .. } => match b {
            Title::Global { selector: s, .. } => if selector == s {
                Reason::Digits
            } else {
                Reason::Title
            },
            _ => Reason::Title,
        },
        _ => Reason::Title,
    }
}

/// The fault of a title, or of what is tested after it.
fn by_title(to: PointCode, a: &Address, b: &Address) -> Reason
    ensures { result ≡ by_title to a.now b.now }
{
    if same_called_title(a, b) {
        by_point(to, a, b)
    } else {
        title_fault(&a.title, &b.title)
    }
}

/// The first fault of a called address.
fn by_address(to: PointCode, a: &Address, b: &Address) -> Reason
    ensures { result ≡ by_address to a.now b.now }
{
    if !same_flag(a.national, b.national) {
        return Reason::National;
    }
    if !same_flag(a.by_ssn, b.by_ssn) {
        return Reason::Routing;
    }
    if !same_number(a.ssn, b.ssn) {
        return Reason::Ssn;
    }
    by_title(to, a, b)
}

/// The same of the called addresses of two messages.
fn by_called(to: PointCode, a: &Message, b: &Message) -> Reason
    ensures { result ≡ by_called to (called_of a.now) (called_of b.now) }
{
    match a.called() {
        Some(a) => match b.called() {
            Some(b) => by_address(to, a, b),
            None => Reason::National,
        },
        None => Reason::National,
    }
}

/// The first fault of a message that the plan would have the node send to a place.
fn by_message(to: PointCode, sent: &Message, place: PointCode, message: &Message) -> Reason
    ensures { result ≡ by_message to sent.now place message.now }
{
    if !same_number(message.hops(), sent.hops()) {
        return Reason::Hops;
    }
    if place != to {
        return Reason::Point;
    }
    by_called(to, message, sent)
}

/// The same of a candidate.
fn by_candidate(
    alloc: Global,
    to: PointCode,
    sent: &Message,
    one: &Candidate,
) -> Result<Reason, OutOfMemory>
    ensures { IfOk result (λ r. r ≡ by_candidate to sent.now one.now) }
{
    match decode(alloc, one.octets.as_slice()) {
        Ok(message) => {
            let reason = by_message(to, sent, one.to, &message);
            drop(message);
            Ok(reason)
        }
        Err(DecodeFault::OutOfMemory) => Err(OutOfMemory),
        Err(_) => Ok(Reason::Hops),
    }
}

/// The later one of a fault and that of a candidate, if this is of the kind.
fn with_candidate(
    alloc: Global,
    to: PointCode,
    sent: &Message,
    cause: Option<u8>,
    latest: Reason,
    one: &Candidate,
) -> Result<Reason, OutOfMemory>
    ensures { IfOk result (λ r. r
        ≡ (if has_cause cause one.now then later latest (by_candidate to sent.now one.now) else latest)) }
{
    if !same_number(one.cause, cause) {
        return Ok(latest);
    }
    Ok(later(latest, by_candidate(alloc, to, sent, one)?))
}

/// The latest fault of the candidates of this kind: service messages with a cause, or the message itself.
fn by_candidates(
    alloc: Global,
    to: PointCode,
    sent: &Message,
    cause: Option<u8>,
    found: &[Candidate],
) -> Result<Reason, OutOfMemory>
    ensures { IfOk result (λ r. r ≡ by_candidates to sent.now (filter (has_cause cause) found.now)) }
{
    let mut latest = Reason::Stays;
    for one in found {
        latest = with_candidate(alloc, to, sent, cause, latest, one)?;
    }
    Ok(latest)
}

/// Whether the calling address is that of the arrived message.
fn keeps_calling(message: &Message, sent: &Message) -> bool
    ensures { result ≡ same_calling (calling_of message.now) (calling_of sent.now) }
{
    match calling(message) {
        Some(a) => match calling(sent) {
            Some(b) => same_address(a, b),
            None => false,
        },
        None => match calling(sent) {
            Some(_) => false,
            None => true,
        },
    }
}

/// Whether the calling address is the called address of the arrived message.
fn exchanges_calling(message: &Message, sent: &Message) -> bool
    ensures { result ≡ same_calling (called_of message.now) (calling_of sent.now) }
{
    match message.called() {
        Some(a) => match calling(sent) {
            Some(b) => same_address(a, b),
            None => false,
        },
        None => match calling(sent) {
            Some(_) => false,
            None => true,
        },
    }
}

/// Whether both have the same parameters, or none can have any.
fn keeps_params(message: &Message, sent: &Message) -> bool
    ensures { result ≡ same_params (params_of message.now) (params_of sent.now) }
{
    have_same_params(message, sent)
}

/// The first fault of the parameters and of what is tested after them. The calling address is the right one.
fn by_contents(
    alloc: Global,
    message: &Message,
    cause: Option<u8>,
    found: &[Candidate],
    to: PointCode,
    sent: &Message,
) -> Result<Reason, OutOfMemory>
    ensures { IfOk result (λ r. r ≡ by_contents message.now true (filter (has_cause cause) found.now) to sent.now) }
{
    if !keeps_params(message, sent) {
        return Ok(Reason::Parameters);
    }
    by_candidates(alloc, to, sent, cause, found)
}

/// The type code of the service message of a type, 0 if it has none.
fn service_code(message: &Message) -> u8
    ensures { result ≡ service_code message.now }
{
    match message {
        Message::Udt { .. } => 0x0A,
        Message::Xudt { .. } => 0x12,
        Message::Ludt { .. } => 0x14,
        _ => 0,
    }
}

/// Whether the sent message is of the type of the arrived one's service message.
fn is_service(message: &Message, sent: &Message) -> bool
    ensures { result ≡ is_service message.now sent.now }
{
    let service = service_code(message);
    service != 0 && code(sent) == service
}

/// Whether some candidate is a service message with this cause.
fn any_has_cause(cause: u8, found: &[Candidate]) -> bool
    ensures { result ≡ list_any (has_cause (Some cause)) found.now }
{
    found.iter().any(|one| same_number(one.cause, Some(cause)))
}

/// The first fault of a service message.
fn by_service(
    alloc: Global,
    message: &Message,
    found: &[Candidate],
    to: PointCode,
    sent: &Message,
) -> Result<Reason, OutOfMemory>
    ensures { IfOk result (λ r. r ≡ by_service message.now found.now to sent.now) }
{
    if !asks_for_return(message) {
        return Ok(Reason::NotAsked);
    }
    let cause = number(sent);
    if !any_has_cause(cause, found) {
        return Ok(Reason::Cause);
    }
    if !exchanges_calling(message, sent) {
        return Ok(Reason::Calling);
    }
    by_contents(alloc, message, Some(cause), found, to, sent)
}

/// The first fault of another message.
fn by_type(
    alloc: Global,
    message: &Message,
    found: &[Candidate],
    to: PointCode,
    sent: &Message,
) -> Result<Reason, OutOfMemory>
    ensures { IfOk result (λ r. r ≡ by_type message.now found.now to sent.now) }
{
    if code(sent) != code(message) {
        return Ok(Reason::Type);
    }
    if number(sent) != number(message) {
        return Ok(Reason::Class);
    }
    if !keeps_calling(message, sent) {
        return Ok(Reason::Calling);
    }
    by_contents(alloc, message, None, found, to, sent)
}

/// The first fault of a message, by what the plan would have the node send because of an arrived one.
fn of_message(
    alloc: Global,
    message: &Message,
    found: &[Candidate],
    to: PointCode,
    sent: &Message,
) -> Result<Reason, OutOfMemory>
    ensures { IfOk result (λ r. r ≡ why_not_of found.now message.now to sent.now) }
{
    if is_service(message, sent) {
        by_service(alloc, message, found, to, sent)
    } else {
        by_type(alloc, message, found, to, sent)
    }
}

/// Why the node did not send a message to that point because of octets that arrived at it: the first test that the message fails. It
/// has the data of these octets. The answer is `Closed` if a target does all this and is not the first open one under any marking,
/// and also if some marking lets the node send the message. The error is want of memory.
#[tactic(auto, unfolding(crate::specs::WhyNot::why_not))]
pub fn why_not(
    alloc: Global,
    at: &Incoming<'_>,
    to: PointCode,
    sent: &Message,
) -> Result<Reason, OutOfMemory>
    ensures { IfOk result (λ r. r ≡ why_not at.now.plan.now at.now.node at.now.origin at.now.octets.now to sent.now) }
{
    let found = candidates(alloc, at)?;
    match decode(alloc, at.octets) {
        Ok(message) => {
            let reason = of_message(alloc, &message, found.as_slice(), to, sent);
            drop(message);
            reason
        }
        Err(DecodeFault::OutOfMemory) => Err(OutOfMemory),
        Err(_) => Ok(Reason::Type),
    }
}
