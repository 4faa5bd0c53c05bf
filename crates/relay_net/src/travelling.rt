//! The journey of a message, by its octets.
ghost use Rattle.std.specs.Prelude.{◌≡◌, ◌<◌, ◌++◌, length, map, Some, Ok, IfOk};
ghost use Rattle.plan_model.specs.declared.spot.Spot.{Spot};
ghost use Rattle.sccp_message.specs.declared.message.Message.{Message};
ghost use Rattle.relay_net.specs.Journeys.{most_arrivals, trip_of, end_at, end_of, service_in, last_node, back_by, back_of, journey};
ghost use Rattle.relay_net.specs.Headline.{IsCoveredMessage, GoesWell, IsCutOff};

use crate::back::Back;
use crate::end::End;
use crate::ends::last_node;
use crate::holds_marking::HoldsMarking;
use crate::riding::{Leg, travel};
use crate::travelled::Journey;
use plan_check::Accepted;
use plan_model::Plan;
use sccp_base::{Boxed, List, Octets, OutOfMemory, PointCode};
use sccp_message::{DecodeFault, Message, decode};
use sccp_scrc::{Arrival, Service, Way};
use std::alloc::Global;

/// The most arrivals of a message. One with a hop counter is not relayed at its fifteenth (Q.713 section 3.18).
fn most_arrivals_of(message: &Message) -> u8
    ensures { result ≡ most_arrivals (Ok message.now) }
{
    if message.hops().is_some() { 15 } else { 14 }
}

/// Octets that arrive at this node from this point.
#[derive(Drop)]
struct Incoming<'a> {
    entry: u8,
    origin: PointCode,
    octets: &'a [u8],
}

/// The last arrival of octets, none if the message is cut off. Its nodes are appended to the path. Only here is the message
/// read.
fn follow<S: HoldsMarking>(
    alloc: Global,
    plan: &Plan,
    states: &[S],
    incoming: &Incoming<'_>,
    path: &mut List<u8>,
) -> Result<Option<Arrival>, OutOfMemory>
    requires entry { incoming.now.entry < length plan.now.nodes }
    requires states { length states.now ≡ length plan.now.nodes }
    ensures last { IfOk result (λ last. last
        ≡ (trip_of plan.now (map S.held states.now) incoming.now.entry incoming.now.origin incoming.now.octets.now).last) }
    ensures path { IfOk result (λ last. path.new
        ≡ path.old ++ (trip_of plan.now (map S.held states.now) incoming.now.entry incoming.now.origin incoming.now.octets.now).path) }
{
    match decode(alloc, incoming.octets) {
        Ok(message) => {
            let leg = Leg {
                left: most_arrivals_of(&message),
                node: incoming.entry,
                origin: incoming.origin,
            };
            travel(alloc, plan, states, leg, message, path)
        }
        Err(DecodeFault::OutOfMemory) => Err(OutOfMemory),
        Err(fault) => {
            path.push(incoming.entry)?;
            Ok(Some(Arrival::Undecodable(fault)))
        }
    }
}

/// The nodes at which octets arrive, in order, and the last arrival, none if the message is cut off.
fn trip<S: HoldsMarking>(
    alloc: Global,
    plan: &Plan,
    states: &[S],
    entry: u8,
    origin: PointCode,
    octets: &[u8],
) -> Result<(List<u8>, Option<Arrival>), OutOfMemory>
    requires entry { entry < length plan.now.nodes }
    requires states { length states.now ≡ length plan.now.nodes }
    ensures path { IfOk result (λ t. t.0 ≡ (trip_of plan.now (map S.held states.now) entry origin octets.now).path) }
    ensures last { IfOk result (λ t. t.1 ≡ (trip_of plan.now (map S.held states.now) entry origin octets.now).last) }
    ensures within { IfOk result (λ t. last_node 0 t.0 < length plan.now.nodes) }
{
    let _nodes = plan.nodes();
    let mut path = List::new(alloc);
    let incoming = Incoming {
        entry,
        origin,
        octets,
    };
    let last = follow(alloc, plan, states, &incoming, &mut path)?;
    Ok((path, last))
}

/// How a trip ends, and the service message.
fn ended(alloc: Global, last: Option<Arrival>) -> Result<(End, Option<Service>), OutOfMemory>
    ensures end { IfOk result (λ t. t.0 ≡ end_of last) }
    ensures service { IfOk result (λ t. t.1 ≡ service_in last) }
{
    match last {
        Some(arrival) => at_end(alloc, arrival),
        None => Ok((End::Cut, None)),
    }
}

// A message at an end, in memory of its own.
fn boxed(alloc: Global, message: Message) -> Result<Boxed<Message>, OutOfMemory>
    ensures { IfOk result (λ m. m ≡ message) }
{
    Boxed::new(alloc, message)
}

fn local(alloc: Global, ssn: u8, message: Message) -> Result<(End, Option<Service>), OutOfMemory>
    ensures end { IfOk result (λ t. t.0 ≡ end_at (Arrival.Local ssn message)) }
    ensures service { IfOk result (λ t. t.1 ≡ service_in (Some (Arrival.Local ssn message))) }
{
    let message = boxed(alloc, message)?;
    Ok((End::Local { ssn, message }, None))
}

fn connection(alloc: Global, message: Message) -> Result<(End, Option<Service>), OutOfMemory>
    ensures end { IfOk result (λ t. t.0 ≡ end_at (Arrival.Connection message)) }
    ensures service { IfOk result (λ t. t.1 ≡ service_in (Some (Arrival.Connection message))) }
{
    let message = boxed(alloc, message)?;
    Ok((End::Connection(message), None))
}

fn management(alloc: Global, message: Message) -> Result<(End, Option<Service>), OutOfMemory>
    ensures end { IfOk result (λ t. t.0 ≡ end_at (Arrival.Management message)) }
    ensures service { IfOk result (λ t. t.1 ≡ service_in (Some (Arrival.Management message))) }
{
    let message = boxed(alloc, message)?;
    Ok((End::Management(message), None))
}

fn at_end(alloc: Global, arrival: Arrival) -> Result<(End, Option<Service>), OutOfMemory>
    ensures end { IfOk result (λ t. t.0 ≡ end_at arrival) }
    ensures service { IfOk result (λ t. t.1 ≡ service_in (Some arrival)) }
{
    match arrival {
        Arrival::Relayed { .. } => Ok((End::Cut, None)),
        Arrival::Ended { pc, ssn, octets } => Ok((End::Ended { pc, ssn, octets }, None)),
        Arrival::Local { ssn, message } => local(alloc, ssn, message),
        Arrival::Returned {
            cause,
            marks,
            service,
        } => Ok((End::Returned { cause, marks }, service)),
        Arrival::Connection(message) => connection(alloc, message),
        Arrival::Management(message) => management(alloc, message),
        Arrival::Undecodable(fault) => Ok((End::Undecodable(fault), None)),
    }
}

/// The service message on its way: one that goes by title arrives at the node that returns it, with that node as origin.
fn back_by<S: HoldsMarking>(
    alloc: Global,
    plan: &Plan,
    states: &[S],
    node: u8,
    octets: Octets,
    way: Way,
) -> Result<Back, OutOfMemory>
    requires node { node < length plan.now.nodes }
    requires states { length states.now ≡ length plan.now.nodes }
    ensures { IfOk result (λ b. b ≡ back_by plan.now (map S.held states.now) node octets way) }
{
    if let Way::ByTitle = way {
        let (path, last) = trip(
            alloc,
            plan,
            states,
            node,
            plan.point_of(node),
            octets.as_slice(),
        )?;
        let (end, _) = ended(alloc, last)?;
        return Ok(Back {
            octets,
            way,
            path,
            end: Some(end),
        });
    }
    Ok(Back {
        octets,
        way,
        path: List::new(alloc),
        end: None,
    })
}

/// The way back of the service message, if there is one.
fn back<S: HoldsMarking>(
    alloc: Global,
    plan: &Plan,
    states: &[S],
    node: u8,
    service: Option<Service>,
) -> Result<Option<Boxed<Back>>, OutOfMemory>
    requires node { node < length plan.now.nodes }
    requires states { length states.now ≡ length plan.now.nodes }
    ensures { IfOk result (λ b. b ≡ back_of plan.now (map S.held states.now) node service) }
{
    match service {
        Some(service) => {
            let back = back_by(alloc, plan, states, node, service.octets, service.way)?;
            Ok(Some(Boxed::new(alloc, back)?))
        }
        None => Ok(None),
    }
}

/// The whole journey.
fn whole<S: HoldsMarking>(
    alloc: Global,
    plan: &Plan,
    states: &[S],
    entry: u8,
    origin: PointCode,
    octets: &[u8],
) -> Result<Journey, OutOfMemory>
    requires entry { entry < length plan.now.nodes }
    requires states { length states.now ≡ length plan.now.nodes }
    ensures { IfOk result (λ j. j ≡ journey plan.now (map S.held states.now) entry origin octets.now) }
{
    let (path, last) = trip(alloc, plan, states, entry, origin, octets)?;
    let node = last_node(0, path.as_slice());
    let (end, service) = ended(alloc, last)?;
    let back = back(alloc, plan, states, node, service)?;
    Ok(Journey { path, end, back })
}

/// The journey of octets that arrive from the point `origin` at the node at the place `entry` of an accepted plan. Each node
/// holds the marking of its state (Q.714 section 2).
///
/// What is relayed arrives at the relay with its point code; any other arrival is the end. A message without a hop counter
/// is cut off if its fourteenth arrival is relayed.
pub fn journey<S: HoldsMarking>(
    alloc: Global,
    accepted: &Accepted,
    states: &[S],
    entry: u8,
    origin: PointCode,
    octets: &[u8],
) -> Result<Journey, OutOfMemory>
    requires entry { entry < length accepted.now.plan.nodes }
    requires states { length states.now ≡ length accepted.now.plan.nodes }
    ensures same { IfOk result (λ j. j ≡ journey accepted.now.plan (map S.held states.now) entry origin octets.now) }
    // A covered message with room, whose hop counter is above the bound, goes well whatever the nodes have marked.
    ensures goes_well { (m : Message) (s : Spot) → IsCoveredMessage accepted.now.plan accepted.now.bound entry octets.now m s →
        IfOk result (λ j. GoesWell accepted.now.plan (map S.held states.now) accepted.now.bound m s j.path j.end) }
    // Only a message without a hop counter is cut off, after fourteen nodes.
    ensures cut { IfOk result (λ j. j.end ≡ End.Cut → IsCutOff octets.now j.path) }
{
    let plan = accepted.plan();
    whole(alloc, plan, states, entry, origin, octets)
}
