//! The arrivals that begin to wait.
ghost use Rattle.std.specs.Prelude.{◌≡◌, ◌<◌, [], length, Some, Ok, is_some, IfOk, IfSome};
ghost use Rattle.sccp_message.specs.Reading.{reading};
ghost use Rattle.sccp_scrc.specs.Arriving.{arrival, point_of};
ghost use Rattle.sccp_scrc.specs.Passing.{ReadsAgain};
ghost use Rattle.relay_ways.specs.Sends.{forwarded, service_sent, sent_of, sends};
ghost use Rattle.relay_watch.specs.Arrivals.{target, data_of, is_management, may_be_answered, waits, begins_at, IsWaiting};

use crate::event::Event;
use crate::relays::relay_at;
use crate::waiting::Waiting;
use plan_model::Plan;
use sccp_address::Address;
use sccp_base::{Marking, Octets, OutOfMemory, PointCode};
use sccp_message::Message;
use sccp_scrc::{Arrival, Service, Way, arrive, asks_for_return};
use std::alloc::Global;

/// Whether a message with this called address is for SCCP management.
pub(crate) fn is_management(address: &Address) -> bool
    ensures { result ≡ is_management address.now }
{
    match address.ssn {
        Some(ssn) => address.by_ssn && ssn == 1,
        None => false,
    }
}

/// Whether a relay may send something because of the message.
fn may_be_answered(message: &Message, address: &Address) -> bool
    ensures { result ≡ may_be_answered message.now address.now }
{
    if address.by_ssn {
        asks_for_return(message) && !is_management(address)
    } else {
        true
    }
}

/// Whether an arrival goes on to another point.
fn is_forwarded(arrival: &Arrival) -> bool
    ensures { result ≡ is_some (forwarded arrival.now) }
{
    matches!(arrival, Arrival::Relayed { .. } | Arrival::Ended { .. })
}

/// What becomes of octets that arrive at the relay.
fn arrived(
    alloc: Global,
    plan: &Plan,
    node: u8,
    marking: &Marking,
    origin: PointCode,
    octets: &[u8],
) -> Result<Arrival, OutOfMemory>
    requires { node < length plan.now.nodes }
    ensures { IfOk result (λ a. a ≡ arrival plan.now node marking.now origin octets.now) }
{
    arrive(alloc, plan, node, marking, origin, octets)
}

/// Whether octets that a relay makes itself go on to another point.
fn goes_on(
    alloc: Global,
    plan: &Plan,
    node: u8,
    marking: &Marking,
    octets: &[u8],
) -> Result<bool, OutOfMemory>
    requires { node < length plan.now.nodes }
    ensures { IfOk result (λ sent. sent ≡ is_some (forwarded (arrival plan.now node marking.now (point_of plan.now node) octets.now))) }
{
    let again = arrived(alloc, plan, node, marking, plan.point_of(node), octets)?;
    let sent = is_forwarded(&again);
    drop(again);
    Ok(sent)
}

/// Whether a service message goes to a point from the relay that makes it.
fn is_service_sent(
    alloc: Global,
    plan: &Plan,
    node: u8,
    marking: &Marking,
    service: &Service,
) -> Result<bool, OutOfMemory>
    requires { node < length plan.now.nodes }
    ensures { IfOk result (λ sent. sent ≡ is_some (service_sent plan.now node marking.now service.now.octets service.now.way)) }
{
    match service.way {
        Way::Direct(_) => Ok(true),
        Way::Shut(_) => Ok(false),
        Way::ByTitle => goes_on(alloc, plan, node, marking, service.octets.as_slice()),
    }
}

/// Whether the relay sends something because of an arrival.
fn is_sent(
    alloc: Global,
    plan: &Plan,
    node: u8,
    marking: &Marking,
    arrival: &Arrival,
) -> Result<bool, OutOfMemory>
    requires { node < length plan.now.nodes }
    ensures { IfOk result (λ sent. sent ≡ is_some (sent_of plan.now node marking.now arrival.now)) }
{
    match arrival {
        Arrival::Returned {
            service: Some(service),
            ..
        } => is_service_sent(alloc, plan, node, marking, service),
        _ => Ok(is_forwarded(arrival)),
    }
}

/// Whether the relay sends something because of the event under a marking.
fn is_due_under(
    alloc: Global,
    plan: &Plan,
    node: u8,
    marking: &Marking,
    event: &Event,
) -> Result<bool, OutOfMemory>
    requires { node < length plan.now.nodes }
    ensures { IfOk result (λ due. due ≡ is_some (sends plan.now node marking.now event.now.origin event.now.octets)) }
{
    let octets = event.octets.as_slice();
    let arrival = arrived(alloc, plan, node, marking, event.origin, octets)?;
    let sent = is_sent(alloc, plan, node, marking, &arrival);
    drop(arrival);
    sent
}

/// Whether the relay sends something because of the event with nothing prohibited.
fn is_due(alloc: Global, plan: &Plan, node: u8, event: &Event) -> Result<bool, OutOfMemory>
    requires { node < length plan.now.nodes }
    ensures { IfOk result (λ due. due ≡ is_some (sends plan.now node [] event.now.origin event.now.octets)) }
{
    let unmarked = Marking::new(alloc);
    let due = is_due_under(alloc, plan, node, &unmarked, event);
    drop(unmarked);
    due
}

/// The data of a message, none if its type has no data.
pub(crate) fn data_of(message: &Message) -> &[u8]
    ensures { result.now ≡ data_of message.now }
{
    match message.payload() {
        Some(payload) => payload.as_slice(),
        None => &[],
    }
}

/// The arrival of an event at the relay at this place.
fn arrival(
    alloc: Global,
    plan: &Plan,
    node: u8,
    event: &Event,
    message: &Message,
) -> Result<Waiting, OutOfMemory>
    requires node { node < length plan.now.nodes }
    requires reads { reading event.now.octets ≡ Ok message.now }
    requires again { ReadsAgain message.now }
    ensures value { IfOk result (λ w. w ≡ waits plan.now node event.now message.now) }
    ensures kept { IfOk result IsWaiting }
{
    let due = is_due(alloc, plan, node, event)?;
    let payload = Octets::from_vec(Vec::from_slice(alloc, data_of(message))?);
    let octets = event.octets.try_clone(alloc)?;
    Ok(Waiting {
        number: event.number,
        node,
        origin: event.origin,
        octets,
        payload,
        due,
    })
}

/// The arrival that begins to wait with an event, if one does.
pub(crate) fn begins(
    alloc: Global,
    plan: &Plan,
    event: &Event,
    message: &Message,
    address: &Address,
) -> Result<Option<Waiting>, OutOfMemory>
    requires reads { reading event.now.octets ≡ Ok message.now }
    requires again { ReadsAgain message.now }
    ensures value { IfOk result (λ w. w ≡ begins_at plan.now event.now message.now address.now (target plan.now event.now)) }
    ensures kept { IfOk result (λ w. IfSome w IsWaiting) }
{
    match relay_at(plan, event.destination) {
        Some(node) => {
            if !may_be_answered(message, address) {
                return Ok(None);
            }
            Ok(Some(arrival(alloc, plan, node, event, message)?))
        }
        None => Ok(None),
    }
}
