//! What a node would send because of an arrival, whether some marking allows it or not.
ghost use Rattle.std.specs.Prelude.{◌≡◌, ◌<◌, ◌==◌, ◌++◌, length, IfOk, OnOk, Some, None, Ok};
ghost use Rattle.std.specs.List.{flat_map, list_any};
ghost use Rattle.sccp_message.specs.declared.message.Message.{Message};
ghost use Rattle.sccp_message.specs.Reading.{reading};
ghost use Rattle.sccp_message.specs.Unitdata.{called_of};
ghost use Rattle.plan_model.specs.Routes.{StaysIn};
ghost use Rattle.sccp_scrc.specs.Arriving.{subsystems_of};
ghost use Rattle.sccp_scrc.specs.Rewriting.{spot_of};
ghost use Rattle.relay_ways.specs.Candidates.{written_or_returned, returns, cause_at, outcome_candidates, candidates, turn_steps};
ghost use Rattle.relay_ways.specs.Candidates.{step_candidates};
ghost use Rattle.relay_ways.specs.Outcomes.{by_address, on_subsystem, titled};

use crate::candidate::Candidate;
use crate::incoming::Incoming;
use crate::returning::add_returned;
use crate::turn_steps::turn_steps;
use crate::writing::{add, onward, rewritten};
use plan_model::{Plan, Spot, Step};
use sccp_address::Address;
use sccp_base::{List, OutOfMemory, PointCode};
use sccp_message::{DecodeFault, Message, decode};
use sccp_scrc::{is_last_hop, spot};
use std::alloc::Global;

/// Adds the message if it goes on to a point with this called address. If it cannot be written, it is returned for cause 9.
fn add_onward(
    alloc: Global,
    at: &Incoming<'_>,
    to: PointCode,
    called: Address,
    found: &mut List<Candidate>,
) -> Result<(), OutOfMemory>
    ensures { (m : Message) → reading at.now.octets.now ≡ Ok m
        → OnOk result (found.new ≡ found.old ++ written_or_returned at.now.plan.now at.now.node at.now.origin m to called) }
{
    let written = rewritten(alloc, at.octets, called)?;
    match written {
        Some(new) => add(found, None, to, new),
        None => add_returned(alloc, at, 9, found),
    }
}

/// The cause for which a step returns the message, if it does.
fn returns(step: &Step) -> Option<u8>
    ensures { result ≡ returns step.now }
{
    match step {
        Step::Blocked { cause, .. } => Some(*cause),
        Step::NoRow { cause } => Some(*cause),
        Step::Overgrown => Some(9),
        _ => None,
    }
}

/// Adds what would be sent if a step is made that does not return the message.
fn add_going_on(
    alloc: Global,
    at: &Incoming<'_>,
    address: &Address,
    spot: &Spot,
    step: &Step,
    found: &mut List<Candidate>,
) -> Result<(), OutOfMemory>
    requires spot { spot_of spot.now.node address.now ≡ Some spot.now }
    requires stays { StaysIn at.now.plan.now step.now }
    requires goes_on { returns step.now ≡ None }
    ensures { (m : Message) → reading at.now.octets.now ≡ Ok m
        → OnOk result (found.new ≡ found.old ++ step_candidates at.now.plan.now at.now.node at.now.origin m address.now step.now) }
{
    match onward(at.plan, at.node, address, spot, step) {
        Some(going) => add_onward(alloc, at, going.0, going.1, found),
        None => Ok(()),
    }
}

/// Adds what would be sent if a step is made of the message.
fn add_step(
    alloc: Global,
    at: &Incoming<'_>,
    address: &Address,
    spot: &Spot,
    step: &Step,
    found: &mut List<Candidate>,
) -> Result<(), OutOfMemory>
    requires spot { spot_of spot.now.node address.now ≡ Some spot.now }
    requires stays { StaysIn at.now.plan.now step.now }
    ensures { (m : Message) → reading at.now.octets.now ≡ Ok m
        → OnOk result (found.new ≡ found.old ++ step_candidates at.now.plan.now at.now.node at.now.origin m address.now step.now) }
{
    match returns(step) {
        Some(cause) => add_returned(alloc, at, cause, found),
        None => add_going_on(alloc, at, address, spot, step, found),
    }
}

/// Adds what would be sent by each step of a title.
fn add_steps(
    alloc: Global,
    at: &Incoming<'_>,
    address: &Address,
    spot: &Spot,
    found: &mut List<Candidate>,
) -> Result<(), OutOfMemory>
    requires spot { spot_of at.now.node address.now ≡ Some spot.now }
    requires here { spot.now.node ≡ at.now.node }
    ensures { (m : Message) → reading at.now.octets.now ≡ Ok m
        → OnOk result (found.new ≡ found.old
        ++ flat_map (step_candidates at.now.plan.now at.now.node at.now.origin m address.now) (turn_steps at.now.plan.now spot.now)) }
{
    let steps = turn_steps(alloc, at.plan, spot)?;
    for step in steps.as_slice() {
        add_step(alloc, at, address, spot, step, found)?;
    }
    Ok(())
}

/// Whether a subsystem is one of the node's.
fn is_own(plan: &Plan, node: u8, ssn: u8) -> bool
    requires { node < length plan.now.nodes }
    ensures { result ≡ list_any (λ own. own == ssn) (subsystems_of plan.now node) }
{
    plan.nodes().as_slice()[usize::from(node)].is_equipped(ssn)
}

/// The cause for which a message that is routed on its subsystem number may be returned: `None` if it is for management.
fn cause_at(plan: &Plan, node: u8, ssn: Option<u8>) -> Option<u8>
    requires { node < length plan.now.nodes }
    ensures { result ≡ cause_at plan.now node ssn }
{
    match ssn {
        Some(ssn) => {
            if ssn == 1 {
                return None;
            }
            if is_own(plan, node, ssn) {
                Some(3)
            } else {
                Some(4)
            }
        }
        None => Some(4),
    }
}

/// Adds what would be sent because of a message that is routed on its subsystem number.
fn add_on_subsystem(
    alloc: Global,
    at: &Incoming<'_>,
    ssn: Option<u8>,
    found: &mut List<Candidate>,
) -> Result<(), OutOfMemory>
    ensures { (m : Message) → reading at.now.octets.now ≡ Ok m → OnOk result (found.new ≡ found.old
        ++ flat_map (outcome_candidates at.now.plan.now at.now.node) (on_subsystem at.now.plan.now at.now.node at.now.origin m ssn)) }
{
    match cause_at(at.plan, at.node, ssn) {
        Some(cause) => add_returned(alloc, at, cause, found),
        None => Ok(()),
    }
}

/// Adds what would be sent because of a message that is routed on its title.
fn add_titled(
    alloc: Global,
    at: &Incoming<'_>,
    address: &Address,
    found: &mut List<Candidate>,
) -> Result<(), OutOfMemory>
    ensures { (m : Message) → reading at.now.octets.now ≡ Ok m → OnOk result (found.new ≡ found.old
        ++ flat_map (outcome_candidates at.now.plan.now at.now.node)
        (titled at.now.plan.now at.now.node at.now.origin m address.now (spot_of at.now.node address.now))) }
{
    match spot(at.node, address) {
        Some(spot) => add_steps(alloc, at, address, &spot, found),
        None => add_returned(alloc, at, 0, found),
    }
}

/// Adds what would be sent because of a message with a called address.
fn add_addressed(
    alloc: Global,
    at: &Incoming<'_>,
    message: &Message,
    address: &Address,
    found: &mut List<Candidate>,
) -> Result<(), OutOfMemory>
    requires { reading at.now.octets.now ≡ Ok message.now }
    ensures { OnOk result (found.new ≡ found.old
        ++ flat_map (outcome_candidates at.now.plan.now at.now.node)
        (by_address at.now.plan.now at.now.node at.now.origin message.now (Some address.now))) }
{
    if address.by_ssn {
        return add_on_subsystem(alloc, at, address.ssn, found);
    }
    if is_last_hop(message.hops()) {
        return add_returned(alloc, at, 12, found);
    }
    add_titled(alloc, at, address, found)
}

/// Adds what would be sent because of a message.
fn add_message(
    alloc: Global,
    at: &Incoming<'_>,
    message: &Message,
    found: &mut List<Candidate>,
) -> Result<(), OutOfMemory>
    requires { reading at.now.octets.now ≡ Ok message.now }
    ensures { OnOk result (found.new ≡ found.old
        ++ flat_map (outcome_candidates at.now.plan.now at.now.node)
        (by_address at.now.plan.now at.now.node at.now.origin message.now (called_of message.now))) }
{
    match message.called() {
        Some(address) => add_addressed(alloc, at, message, address, found),
        None => Ok(()),
    }
}

/// Adds what would be sent because of octets.
#[tactic(auto, unfolding(crate::specs::Candidates::candidates))]
fn add_octets(
    alloc: Global,
    at: &Incoming<'_>,
    found: &mut List<Candidate>,
) -> Result<(), OutOfMemory>
    ensures { OnOk result (found.new ≡ found.old ++ candidates at.now.plan.now at.now.node at.now.origin at.now.octets.now) }
{
    match decode(alloc, at.octets) {
        Ok(message) => {
            let added = add_message(alloc, at, &message, found);
            drop(message);
            added
        }
        Err(DecodeFault::OutOfMemory) => Err(OutOfMemory),
        Err(_) => Ok(()),
    }
}

/// What the node would send because of octets that arrive at it: by each target of the row that counts, and for each return cause,
/// whether some marking allows it or not. What some marking allows is in `ways` as well. The error is want of memory.
pub fn candidates(alloc: Global, at: &Incoming<'_>) -> Result<List<Candidate>, OutOfMemory>
    ensures { IfOk result (λ found. found ≡ candidates at.now.plan.now at.now.node at.now.origin at.now.octets.now) }
{
    let mut found = List::new(alloc);
    add_octets(alloc, at, &mut found)?;
    Ok(found)
}
