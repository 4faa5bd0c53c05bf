//! The way of a message from relay to relay. It is changed in place and written only when it leaves them.
ghost use Rattle.std.specs.Prelude.{◌≡◌, ◌<◌, ◌++◌, length, map, false, IfOk};
ghost use Rattle.sccp_message.specs.Written.{message_octets};
ghost use Rattle.sccp_message.specs.Unitdata.{called_of};
ghost use Rattle.plan_model.specs.Network.{IsPlan};
ghost use Rattle.sccp_scrc.specs.Arriving.{by_called, arrival};
ghost use Rattle.sccp_scrc.specs.Passing.{sent_on, is_relayed, IsPassed, ReadsAgain};
ghost use Rattle.relay_net.specs.Journeys.{held_at, travel};
ghost use Rattle.relay_net.specs.Riding.{GoesOn, Rests};

use crate::holds_marking::HoldsMarking;
use plan_model::{Hop, Plan};
use sccp_base::{List, Marking, OutOfMemory, PointCode};
use sccp_message::Message;
use sccp_scrc::{Arrival, Here, Passed, arrive_message, arrive_stepped, pass_on};
use std::alloc::Global;

/// The way of a message from here on: the number of arrivals that are left at most, the first of them at this node, from this
/// origin.
#[derive(Drop)]
pub(crate) struct Leg {
    pub(crate) left: u8,
    pub(crate) node: u8,
    pub(crate) origin: PointCode,
}

/// The end of the way of a message from relay to relay: the number of arrivals that are left, the first of them at this node,
/// from this origin. If its title was looked up there, the hop is what was found.
#[derive(Drop)]
pub(crate) struct Rest {
    pub(crate) left: u8,
    pub(crate) node: u8,
    pub(crate) origin: PointCode,
    pub(crate) hop: Option<Hop>,
}

/// The marking that a node holds.
fn marking_at<S: HoldsMarking>(states: &[S], node: u8) -> &Marking
    requires { node < length states.now }
    ensures { result.now ≡ held_at (map S.held states.now) node }
{
    states[usize::from(node)].marking()
}

/// Passes a message on to the next relay, under the marking that the node holds. The message reads again once it is written,
/// and stays one that does.
fn pass<S: HoldsMarking>(
    alloc: Global,
    plan: &Plan,
    states: &[S],
    node: u8,
    message: &mut Message,
) -> Result<Passed, OutOfMemory>
    requires node { node < length plan.now.nodes }
    requires states { length states.now ≡ length plan.now.nodes }
    requires again { ReadsAgain message.old }
    ensures value { let held = held_at (map S.held states.now) node in
        IfOk result (IsPassed plan.now node held (λ origin. by_called plan.now node held origin message.old (called_of message.old))
        (sent_on plan.now node held message.old) message.old message.new) }
    ensures again { IfOk result (λ passed. ReadsAgain message.new) }
    ensures plan { IsPlan plan.now }
{
    let _nodes = plan.nodes();
    let marking = marking_at(states, node);
    pass_on(alloc, plan, node, marking, message)
}

/// Passes the message on as far as it goes in place, and appends its nodes to the path.
fn ride<S: HoldsMarking>(
    alloc: Global,
    plan: &Plan,
    states: &[S],
    leg: Leg,
    message: &mut Message,
    path: &mut List<u8>,
) -> Result<Rest, OutOfMemory>
    requires node { leg.node < length plan.now.nodes }
    requires states { length states.now ≡ length plan.now.nodes }
    requires again { ReadsAgain message.old }
    ensures node { IfOk result (λ rest. rest.node < length plan.now.nodes) }
    ensures again { IfOk result (λ rest. ReadsAgain message.new) }
    ensures goes { let held = map S.held states.now in
        IfOk result (λ rest. GoesOn path.old (travel plan.now held leg.left leg.node leg.origin (message_octets message.old)) path.new
        (travel plan.now held rest.left rest.node rest.origin (message_octets message.new))) }
    ensures rests { IfOk result (λ rest. 0 < rest.left
        → Rests plan.now rest.node (held_at (map S.held states.now) rest.node) message.new rest.hop) }
{
    let mut left = leg.left;
    let mut node = leg.node;
    let mut origin = leg.origin;
    while left > 0 {
        match pass(alloc, plan, states, node, message)? {
            Passed::On { next } => {
                path.push(node)?;
                origin = plan.point_of(node);
                node = next;
                left -= 1;
            }
            Passed::Stays(hop) => {
                return Ok(Rest {
                    left,
                    node,
                    origin,
                    hop,
                })
            }
        }
    }
    Ok(Rest {
        left,
        node,
        origin,
        hop: None,
    })
}

/// What becomes of a message at the node at which it rests, under the marking that the node holds: the same as of its octets.
fn stop<S: HoldsMarking>(
    alloc: Global,
    plan: &Plan,
    states: &[S],
    rest: Rest,
    message: Message,
) -> Result<Arrival, OutOfMemory>
    requires node { rest.node < length plan.now.nodes }
    requires states { length states.now ≡ length plan.now.nodes }
    requires again { ReadsAgain message }
    requires rests { Rests plan.now rest.node (held_at (map S.held states.now) rest.node) message rest.hop }
    ensures value { IfOk result (λ a. a ≡ arrival plan.now rest.node (held_at (map S.held states.now) rest.node) rest.origin
        (message_octets message)) }
    ensures unrelayed { IfOk result (λ a. is_relayed a ≡ false) }
{
    let Rest {
        node,
        origin,
        hop,
        ..
    } = rest;
    let marking = marking_at(states, node);
    let here = Here {
        plan,
        node,
        marking,
        origin,
    };
    match hop {
        Some(hop) => arrive_stepped(alloc, &here, message, hop),
        None => arrive_message(alloc, &here, message),
    }
}

/// The last arrival of a message that rests, none if no arrival is left. Its node is appended to the path.
fn end_ride<S: HoldsMarking>(
    alloc: Global,
    plan: &Plan,
    states: &[S],
    rest: Rest,
    message: Message,
    path: &mut List<u8>,
) -> Result<Option<Arrival>, OutOfMemory>
    requires node { rest.node < length plan.now.nodes }
    requires states { length states.now ≡ length plan.now.nodes }
    requires again { ReadsAgain message }
    requires rests { 0 < rest.left → Rests plan.now rest.node (held_at (map S.held states.now) rest.node) message rest.hop }
    ensures last { IfOk result (λ last. last ≡ (travel plan.now (map S.held states.now) rest.left rest.node rest.origin
        (message_octets message)).last) }
    ensures path { IfOk result (λ last. path.new ≡ path.old
        ++ (travel plan.now (map S.held states.now) rest.left rest.node rest.origin (message_octets message)).path) }
{
    if rest.left == 0 {
        drop(rest);
        drop(message);
        return Ok(None);
    }
    match path.push(rest.node) {
        Ok(()) => match stop(alloc, plan, states, rest, message) {
            Ok(last) => Ok(Some(last)),
            Err(fault) => Err(fault),
        },
        Err(fault) => {
            drop(rest);
            drop(message);
            Err(fault)
        }
    }
}

/// The last arrival of the message, none if it is cut off. Its nodes are appended to the path.
pub(crate) fn travel<S: HoldsMarking>(
    alloc: Global,
    plan: &Plan,
    states: &[S],
    leg: Leg,
    message: Message,
    path: &mut List<u8>,
) -> Result<Option<Arrival>, OutOfMemory>
    requires node { leg.node < length plan.now.nodes }
    requires states { length states.now ≡ length plan.now.nodes }
    requires again { ReadsAgain message }
    ensures last { IfOk result (λ last. last ≡ (travel plan.now (map S.held states.now) leg.left leg.node leg.origin
        (message_octets message)).last) }
    ensures path { IfOk result (λ last. path.new ≡ path.old
        ++ (travel plan.now (map S.held states.now) leg.left leg.node leg.origin (message_octets message)).path) }
{
    let mut ridden = message;
    match ride(alloc, plan, states, leg, &mut ridden, path) {
        Ok(rest) => end_ride(alloc, plan, states, rest, ridden, path),
        Err(fault) => {
            drop(ridden);
            Err(fault)
        }
    }
}
