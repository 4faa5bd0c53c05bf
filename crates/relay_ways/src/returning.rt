//! What a node would send because it returns an arrival: the service message itself, or what goes on of it at the node.
ghost use Rattle.std.specs.Prelude.{◌≡◌, ◌<◌, ◌++◌, [], length, List, IfOk, OnOk, Some, Ok};
ghost use Rattle.std.specs.List.{flat_map};
ghost use Rattle.sccp_base.specs.declared.mark.Mark.{Mark};
ghost use Rattle.sccp_message.specs.declared.message.Message.{Message};
ghost use Rattle.sccp_message.specs.Reading.{reading};
ghost use Rattle.sccp_message.specs.Unitdata.{called_of};
ghost use Rattle.plan_model.specs.Routes.{StaysIn};
ghost use Rattle.sccp_scrc.specs.Arriving.{point_of};
ghost use Rattle.sccp_scrc.specs.Returning.{returned, service_for};
ghost use Rattle.sccp_scrc.specs.Rewriting.{spot_of};
ghost use Rattle.sccp_scrc.specs.declared.arrival.Arrival.{Arrival};
ghost use Rattle.relay_ways.specs.Candidates.{served, candidates_of, outcome_going_on, turn_steps, step_going_on};
ghost use Rattle.relay_ways.specs.Outcomes.{outcomes, by_address, titled};

use crate::candidate::Candidate;
use crate::incoming::Incoming;
use crate::own_service::OwnService;
use crate::turn_steps::turn_steps;
use crate::writing::{add, add_written, onward, read};
use plan_model::{Plan, Spot, Step};
use sccp_address::Address;
use sccp_base::{List, Marking, OutOfMemory, PointCode};
use sccp_message::{DecodeFault, Message, decode};
use sccp_scrc::{Service, Way, is_last_hop, service_for, spot};
use std::alloc::Global;

/// Adds what goes on if a step is made of a service message at the node itself.
fn add_service_step(
    alloc: Global,
    service: &OwnService<'_>,
    address: &Address,
    spot: &Spot,
    step: &Step,
    found: &mut List<Candidate>,
) -> Result<(), OutOfMemory>
    requires spot { spot_of spot.now.node address.now ≡ Some spot.now }
    requires stays { StaysIn service.now.plan.now step.now }
    ensures { (m : Message) → reading service.now.octets.now ≡ Ok m → OnOk result (found.new ≡ found.old
        ++ step_going_on service.now.plan.now service.now.node service.now.cause m address.now step.now) }
{
    match onward(service.plan, service.node, address, spot, step) {
        Some(going) => add_written(
            alloc,
            service.octets,
            service.cause,
            going.0,
            going.1,
            found,
        ),
        None => Ok(()),
    }
}

/// Adds what goes on of a service message at the node itself, by each step of its title.
fn add_service_steps(
    alloc: Global,
    service: &OwnService<'_>,
    address: &Address,
    spot: &Spot,
    found: &mut List<Candidate>,
) -> Result<(), OutOfMemory>
    requires spot { spot_of service.now.node address.now ≡ Some spot.now }
    requires here { spot.now.node ≡ service.now.node }
    ensures { (m : Message) → reading service.now.octets.now ≡ Ok m → OnOk result (found.new ≡ found.old
        ++ flat_map (step_going_on service.now.plan.now service.now.node service.now.cause m address.now)
        (turn_steps service.now.plan.now spot.now)) }
{
    let steps = turn_steps(alloc, service.plan, spot)?;
    for step in steps.as_slice() {
        add_service_step(alloc, service, address, spot, step, found)?;
    }
    Ok(())
}

/// Adds what goes on of a service message that is routed on its title.
fn add_titled_service(
    alloc: Global,
    service: &OwnService<'_>,
    address: &Address,
    found: &mut List<Candidate>,
) -> Result<(), OutOfMemory>
    ensures { (m : Message) → reading service.now.octets.now ≡ Ok m → OnOk result (found.new ≡ found.old
        ++ flat_map (outcome_going_on (Some service.now.cause))
        (titled service.now.plan.now service.now.node (point_of service.now.plan.now service.now.node) m address.now
        (spot_of service.now.node address.now))) }
{
    match spot(service.node, address) {
        Some(spot) => add_service_steps(alloc, service, address, &spot, found),
        None => Ok(()),
    }
}

/// Adds what goes on of a service message at the node itself.
fn add_of_service(
    alloc: Global,
    service: &OwnService<'_>,
    message: &Message,
    found: &mut List<Candidate>,
) -> Result<(), OutOfMemory>
    requires { reading service.now.octets.now ≡ Ok message.now }
    ensures { OnOk result (found.new ≡ found.old ++ flat_map (outcome_going_on (Some service.now.cause))
        (by_address service.now.plan.now service.now.node (point_of service.now.plan.now service.now.node) message.now
        (called_of message.now))) }
{
    match message.called() {
        Some(address) => {
            if address.by_ssn {
                return Ok(());
            }
            if is_last_hop(message.hops()) {
                return Ok(());
            }
            add_titled_service(alloc, service, address, found)
        }
        None => Ok(()),
    }
}

/// Adds what goes on of the octets of a service message at the node itself.
fn add_by_title(
    alloc: Global,
    service: &OwnService<'_>,
    found: &mut List<Candidate>,
) -> Result<(), OutOfMemory>
    ensures { OnOk result (found.new ≡ found.old ++ flat_map (outcome_going_on (Some service.now.cause))
        (outcomes service.now.plan.now service.now.node (point_of service.now.plan.now service.now.node) service.now.octets.now)) }
{
    match decode(alloc, service.octets) {
        Ok(message) => {
            let added = add_of_service(alloc, service, &message, found);
            drop(message);
            added
        }
        Err(DecodeFault::OutOfMemory) => Err(OutOfMemory),
        Err(_) => Ok(()),
    }
}

/// Adds a service message.
fn add_served(
    alloc: Global,
    plan: &Plan,
    node: u8,
    cause: u8,
    service: Service,
    found: &mut List<Candidate>,
) -> Result<(), OutOfMemory>
    requires { node < length plan.now.nodes }
    ensures { OnOk result (found.new ≡ found.old ++ served plan.now node cause service.octets service.way) }
{
    let Service { octets, way } = service;
    match way {
        Way::Direct(to) => add(found, Some(cause), to, octets),
        Way::Shut(_) => Ok(()),
        Way::ByTitle => {
            let own = OwnService {
                plan,
                node,
                octets: octets.as_slice(),
                cause,
            };
            add_by_title(alloc, &own, found)
        }
    }
}

/// Adds the service message, if there is one.
fn add_served_if_any(
    alloc: Global,
    plan: &Plan,
    node: u8,
    cause: u8,
    service: Option<Service>,
    found: &mut List<Candidate>,
) -> Result<(), OutOfMemory>
    requires { node < length plan.now.nodes }
    ensures { (marks : List Mark) → OnOk result (found.new ≡ found.old
        ++ candidates_of plan.now node (Arrival.Returned cause marks service)) }
{
    match service {
        Some(service) => add_served(alloc, plan, node, cause, service, found),
        None => Ok(()),
    }
}

/// The service message of a message while nothing is prohibited, if the sender asks for one and it can be written.
fn unmarked_service(
    alloc: Global,
    origin: PointCode,
    cause: u8,
    message: Message,
) -> Result<Option<Service>, OutOfMemory>
    ensures { IfOk result (λ s. s ≡ service_for [] origin cause message) }
{
    let unmarked = Marking::new(alloc);
    let service = service_for(alloc, &unmarked, origin, cause, message);
    drop(unmarked);
    service
}

/// Adds the service message if the message is returned for this cause.
pub(crate) fn add_returned(
    alloc: Global,
    at: &Incoming<'_>,
    cause: u8,
    found: &mut List<Candidate>,
) -> Result<(), OutOfMemory>
    ensures { (m : Message) (marks : List Mark) → reading at.now.octets.now ≡ Ok m → OnOk result (found.new ≡ found.old
        ++ candidates_of at.now.plan.now at.now.node (returned [] at.now.origin m cause marks)) }
{
    let message = read(alloc, at.octets)?;
    let service = unmarked_service(alloc, at.origin, cause, message)?;
    add_served_if_any(alloc, at.plan, at.node, cause, service, found)
}
