//! One worker, who routes the messages of a replay in turn.
ghost use Rattle.std.specs.Prelude.{◌≡◌, ◌+◌, ◌^◌, ◌<◌, [], ◌++◌, All, map, length, IfOk, OnOk};
ghost use Rattle.relay_net.specs.States.{markings_of};
ghost use Rattle.sccp_replay.specs.Incoming.{incoming_in};
ghost use Rattle.sccp_replay.specs.Replay.{latest, plan_at};
ghost use Rattle.sccp_replay.specs.Replayers.{AreRouted, ComesToNode, IsRouted, RoutesBatch, RoutesLine, number_in, numbers_of, settled_in};
ghost use Rattle.sccp_replay.specs.Routings.{ArePlans, IsRouting, ahead, plan_in, routing, standing};

use crate::incoming::Incoming;
use crate::settled::Settled;
use plan_check::Accepted;
use relay_net::{NodeState, Served, journey};
use sccp_base::{List, OutOfMemory};
use std::alloc::Global;
use std::marker::Model;

/// One worker, who takes each message in its turn, under the number of plans that were accepted before its line.
#[derive(Drop)]
pub struct Alone {
    first: Accepted,
    later: Vec<Accepted>,
}

impl Model for Alone {
    ghost use Rattle.sccp_replay.specs.Routings.{Routing, IsRouting, routing};

    ghost Value = { Routing };

    ghost view = { λ a. routing 1 a.first a.later.items };

    ghost invariant = { λ a. IsRouting (routing 1 a.first a.later.items) };
}

/// The plan of a number, from 1.
fn plan_of_number<'a>(first: &'a Accepted, later: &'a [Accepted], number: u32) -> &'a Accepted
    ensures { result.now.plan ≡ plan_at (standing (routing 1 first.now later.now) []) number }
{
    if number < 2 {
        return first;
    }
    match later.get(number as usize - 2) {
        Some(accepted) => accepted,
        None => first,
    }
}

/// Routes one message under the plan of this number.
fn route_one(
    alloc: Global,
    first: &Accepted,
    later: &[Accepted],
    states: &[NodeState],
    number: u32,
    incoming: &Incoming,
) -> Result<Served, OutOfMemory>
    requires plans { IsRouting (routing 1 first.now later.now) }
    requires states { length states.now ≡ length first.now.plan.nodes }
    requires entry { incoming.now.entry < length first.now.plan.nodes }
    ensures number { IfOk result (λ one. one.number ≡ number) }
    ensures routed { IfOk result (IsRouted (standing (routing 1 first.now later.now) states.now) (markings_of states.now)
        (incoming_in incoming.now)) }
{
    let accepted = plan_of_number(first, later, number);
    // This call ensures that the plan is sound.
    let _plan = accepted.plan();
    let octets = incoming.octets.as_slice();
    let journey = journey(
        alloc,
        accepted,
        states,
        incoming.entry,
        incoming.origin,
        octets,
    )?;
    Ok(Served { number, journey })
}

/// Routes the message of one more line of a batch, if it has one.
fn route_line(
    alloc: Global,
    first: &Accepted,
    later: &[Accepted],
    states: &[NodeState],
    one: &Settled,
    served: &mut List<Served>,
) -> Result<(), OutOfMemory>
    requires plans { IsRouting (routing 1 first.now later.now) }
    requires states { length states.now ≡ length first.now.plan.nodes }
    requires fits { ComesToNode first.now.plan one.now }
    ensures { OnOk result (RoutesLine (standing (routing 1 first.now later.now) states.now) (markings_of states.now)
        (settled_in one.now) served.old served.new) }
{
    match one {
        Settled::Prints(_) => Ok(()),
        Settled::Routes {
            incoming,
            before,
            ..
        } => {
            let one = route_one(alloc, first, later, states, *before, incoming)?;
            served.push(one)
        }
    }
}

/// Routes the messages of a batch, one after the other.
fn route_all(
    alloc: Global,
    first: &Accepted,
    later: &[Accepted],
    states: &[NodeState],
    settled: &[Settled],
) -> Result<List<Served>, OutOfMemory>
    requires plans { IsRouting (routing 1 first.now later.now) }
    requires states { length states.now ≡ length first.now.plan.nodes }
    requires fits { All (ComesToNode first.now.plan) settled.now }
    ensures routed { IfOk result (AreRouted (standing (routing 1 first.now later.now) states.now) (markings_of states.now)
        (map settled_in settled.now)) }
    ensures numbers { IfOk result (λ served. map number_in served ≡ numbers_of (map settled_in settled.now)) }
{
    let mut served = List::new(alloc);
    for one in settled {
        route_line(alloc, first, later, states, one, &mut served)?;
    }
    Ok(served)
}

impl Alone {
    /// A worker for whom only the first plan was accepted.
    pub fn new(alloc: Global, first: Accepted) -> Alone
        ensures { result ≡ routing 1 first [] }
    {
        // This call ensures that the plan is sound.
        let _plan = first.plan();
        Alone {
            first,
            later: Vec::new(alloc),
        }
    }

    /// The first plan.
    pub fn first(&self) -> &Accepted
        ensures value { result.now ≡ self.now.first }
        ensures plans { IsRouting self.now }
    {
        &self.first
    }

    /// How many plans were accepted.
    pub fn accepted(&self) -> u32
        ensures { result ≡ length self.now.later + 1 }
    {
        self.later.len() as u32 + 1
    }

    /// The last plan.
    pub fn latest(&self) -> &Accepted
        ensures { result.now.plan ≡ latest (standing self.now []) }
    {
        let number = self.later.len() as u32 + 1;
        plan_of_number(&self.first, self.later.as_slice(), number)
    }

    /// Routes the messages of a batch, and accepts the plans that are in it.
    pub fn route(
        &mut self,
        alloc: Global,
        states: &[NodeState],
        settled: &[Settled],
        coming: List<Accepted>,
    ) -> Result<List<Served>, OutOfMemory>
        requires plans { ArePlans self.old.first.plan (ahead (standing self.old states.now) coming).later }
        requires states { length states.now ≡ length self.old.first.plan.nodes }
        requires fits { All (ComesToNode self.old.first.plan) settled.now }
        ensures first { self.new.first ≡ self.old.first }
        ensures plans { IsRouting self.new }
        ensures at { OnOk result (standing self.new states.now ≡ ahead (standing self.old states.now) coming) }
        ensures served { IfOk result (RoutesBatch (standing self.old states.now) (ahead (standing self.old states.now) coming)
            (map settled_in settled.now)) }
    {
        let mut coming = coming.into_vec();
        self.later.append(&mut coming)?;
        route_all(alloc, &self.first, self.later.as_slice(), states, settled)
    }
}
