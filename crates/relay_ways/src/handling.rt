//! By which target a node routes a message, or for which cause it returns it.
ghost use Rattle.std.specs.Prelude.{◌≡◌, ◌<◌, true, length, option_map, IfOk};
ghost use Rattle.std.specs.Option.{option_and_then};
ghost use Rattle.plan_model.specs.RowFor.{row_of};
ghost use Rattle.plan_model.specs.Steps.{step};
ghost use Rattle.sccp_message.specs.Unitdata.{called_of};
ghost use Rattle.sccp_scrc.specs.Rewriting.{spot_of};
ghost use Rattle.relay_ways.specs.Conditions.{meets};
ghost use Rattle.relay_ways.specs.Handling.{at_target, target_of, row_at, IsTakenAt, IsTakenBy, IsTaken, IsTakenBack, IsServed, HandlesAs};
ghost use Rattle.relay_ways.specs.Handling.{Handles, HandlesIf};

use crate::condition::{Condition, least_marking};
use crate::incoming::Incoming;
use plan_model::{Plan, Spot, Step, step};
use sccp_address::Address;
use sccp_base::{Marking, OutOfMemory};
use sccp_message::{DecodeFault, Message, decode};
use sccp_scrc::{Arrival, Service, Way, arrive, spot};
use std::alloc::Global;

/// The target that a node takes for a title: the place of its row in the node's table, and its place in the row, both from 0.
#[derive(Clone, Copy)]
pub struct Taken {
    pub row: usize,
    pub target: u8,
}

/// How a node handles a message. `cause` is the return cause of one that is returned (Q.714 section 4.2). `taken` is the target
/// by which the message goes on, or the service message if that goes by its title.
#[derive(Clone, Copy)]
pub struct Handling {
    pub cause: Option<u8>,
    pub taken: Option<Taken>,
}

/// The place of the target that a step takes.
fn target_of(step: &Step) -> Option<u8>
    ensures { result ≡ target_of step.now }
{
    match step {
        Step::Sent { target, .. } => Some(*target),
        Step::Ended { target, .. } => Some(*target),
        _ => None,
    }
}

/// The place of the row that counts for a spot.
fn row_place(plan: &Plan, spot: &Spot) -> Option<usize>
    requires { spot.now.node < length plan.now.nodes }
    ensures { option_and_then (row_at plan.now spot.now.node) result ≡ row_of plan.now spot.now }
{
    let node = &plan.nodes().as_slice()[usize::from(spot.node)];
    node.table.find(spot.selector, spot.ssn, &spot.digits)
}

/// The place of the target that the spot's node takes.
fn target_at(
    alloc: Global,
    plan: &Plan,
    spot: &Spot,
    marking: &Marking,
) -> Result<Option<u8>, OutOfMemory>
    requires { spot.now.node < length plan.now.nodes }
    ensures { IfOk result (λ target. target ≡ target_of (step plan.now spot.now marking.now)) }
{
    let step = step(alloc, plan, spot, marking)?;
    let target = target_of(&step);
    drop(step);
    Ok(target)
}

/// A target of a row, if there is one.
fn taken_of(row: usize, target: Option<u8>) -> Option<Taken>
    ensures { result ≡ option_map (at_target row) target }
{
    match target {
        Some(target) => Some(Taken { row, target }),
        None => None,
    }
}

/// The target that the spot's node takes, if it takes one.
fn taken_at(
    alloc: Global,
    plan: &Plan,
    spot: &Spot,
    marking: &Marking,
) -> Result<Option<Taken>, OutOfMemory>
    requires { spot.now.node < length plan.now.nodes }
    ensures { IfOk result (IsTakenAt plan.now spot.now marking.now) }
{
    match row_place(plan, spot) {
        Some(row) => {
            let target = target_at(alloc, plan, spot, marking)?;
            Ok(taken_of(row, target))
        }
        None => Ok(None),
    }
}

/// The target that the node takes for an address.
fn taken_for(
    alloc: Global,
    plan: &Plan,
    node: u8,
    marking: &Marking,
    address: &Address,
) -> Result<Option<Taken>, OutOfMemory>
    requires { node < length plan.now.nodes }
    ensures { IfOk result (IsTakenBy plan.now marking.now (spot_of node address.now)) }
{
    match spot(node, address) {
        Some(spot) => taken_at(alloc, plan, &spot, marking),
        None => Ok(None),
    }
}

/// The target that the node takes for the called address of a message.
fn taken_by(
    alloc: Global,
    plan: &Plan,
    node: u8,
    marking: &Marking,
    message: &Message,
) -> Result<Option<Taken>, OutOfMemory>
    requires { node < length plan.now.nodes }
    ensures { IfOk result (IsTakenBy plan.now marking.now (option_and_then (spot_of node) (called_of message.now))) }
{
    match message.called() {
        Some(address) => taken_for(alloc, plan, node, marking, address),
        None => Ok(None),
    }
}

/// The target that the node takes for the title of octets, if it takes one.
fn taken_of_octets(
    alloc: Global,
    plan: &Plan,
    node: u8,
    marking: &Marking,
    octets: &[u8],
) -> Result<Option<Taken>, OutOfMemory>
    requires { node < length plan.now.nodes }
    ensures { IfOk result (IsTaken plan.now node marking.now octets.now) }
{
    match decode(alloc, octets) {
        Ok(message) => {
            let taken = taken_by(alloc, plan, node, marking, &message);
            drop(message);
            taken
        }
        Err(DecodeFault::OutOfMemory) => Err(OutOfMemory),
        Err(_) => Ok(None),
    }
}

/// The target by which a service message goes back.
fn taken_back(
    alloc: Global,
    plan: &Plan,
    node: u8,
    marking: &Marking,
    service: &Service,
) -> Result<Option<Taken>, OutOfMemory>
    requires { node < length plan.now.nodes }
    ensures { IfOk result (IsTakenBack plan.now node marking.now service.now.octets service.now.way) }
{
    match service.way {
        Way::ByTitle => taken_of_octets(alloc, plan, node, marking, service.octets.as_slice()),
        _ => Ok(None),
    }
}

/// The same of the service message that there may be.
fn served(
    alloc: Global,
    plan: &Plan,
    node: u8,
    marking: &Marking,
    service: &Option<Service>,
) -> Result<Option<Taken>, OutOfMemory>
    requires { node < length plan.now.nodes }
    ensures { IfOk result (IsServed plan.now node marking.now service.now) }
{
    match service {
        Some(service) => taken_back(alloc, plan, node, marking, service),
        None => Ok(None),
    }
}

/// How the node handles octets of which this becomes.
fn of_arrival(
    alloc: Global,
    plan: &Plan,
    node: u8,
    marking: &Marking,
    octets: &[u8],
    arrival: &Arrival,
) -> Result<Handling, OutOfMemory>
    requires { node < length plan.now.nodes }
    ensures { IfOk result (HandlesAs plan.now node marking.now octets.now arrival.now) }
{
    match arrival {
        Arrival::Relayed { .. } => Ok(Handling {
            cause: None,
            taken: taken_of_octets(alloc, plan, node, marking, octets)?,
        }),
        Arrival::Ended { .. } => Ok(Handling {
            cause: None,
            taken: taken_of_octets(alloc, plan, node, marking, octets)?,
        }),
        Arrival::Returned { cause, service, .. } => Ok(Handling {
            cause: Some(*cause),
            taken: served(alloc, plan, node, marking, service)?,
        }),
        _ => Ok(Handling {
            cause: None,
            taken: None,
        }),
    }
}

/// How the node handles octets under a marking.
fn under(alloc: Global, at: &Incoming<'_>, marking: &Marking) -> Result<Handling, OutOfMemory>
    ensures { IfOk result (Handles at.now.plan.now at.now.node marking.now at.now.origin at.now.octets.now) }
{
    let arrival = arrive(alloc, at.plan, at.node, marking, at.origin, at.octets)?;
    let handling = of_arrival(alloc, at.plan, at.node, marking, at.octets, &arrival);
    drop(arrival);
    handling
}

/// The same, if the marking meets the condition.
fn under_met(
    alloc: Global,
    at: &Incoming<'_>,
    marking: &Marking,
    condition: &Condition,
) -> Result<Handling, OutOfMemory>
    requires { meets marking.now condition.now ≡ true }
    ensures { IfOk result (HandlesIf at.now.plan.now at.now.node at.now.origin at.now.octets.now condition.now) }
{
    under(alloc, at, marking)
}

/// How the node handles octets that arrive at it, if the condition is met, which is that of one of their `ways`.
pub(crate) fn handle(
    alloc: Global,
    at: &Incoming<'_>,
    condition: &Condition,
) -> Result<Handling, OutOfMemory>
    ensures { IfOk result (HandlesIf at.now.plan.now at.now.node at.now.origin at.now.octets.now condition.now) }
{
    match least_marking(alloc, condition)? {
        Some(marking) => {
            let handling = under_met(alloc, at, &marking, condition);
            drop(marking);
            handling
        }
        None => Ok(Handling {
            cause: None,
            taken: None,
        }),
    }
}
