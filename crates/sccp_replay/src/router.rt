//! Who routes the messages of a replay: one worker or several.
ghost use Rattle.std.specs.Prelude.{◌≡◌, ◌+◌, ◌≤◌, [], map, length, IfOk, OnOk};
ghost use Rattle.sccp_replay.specs.Replay.{latest};
ghost use Rattle.sccp_replay.specs.Replayers.{MayBeRouted, RoutesBatch, settled_in};
ghost use Rattle.sccp_replay.specs.Routers.{routing_of};
ghost use Rattle.sccp_replay.specs.Routings.{ArePlans, IsRouting, ahead, routing, standing};

use crate::alone::Alone;
use crate::crew::Crew;
use crate::settled::Settled;
use live_plan::{Gate, Host};
use plan_check::Accepted;
use relay_net::{NodeState, Served};
use sccp_base::{List, OutOfMemory};
use std::alloc::Global;
use std::sync::Wait;
use std::thread::Threads;

/// Who routes the messages of a replay, under the plans that were accepted so far.
pub enum Router {
    /// One worker, without a thread.
    Alone(Alone),
    /// Several.
    Crew(Crew),
}

impl Router {
    /// This number of workers, with only the first plan accepted.
    pub fn new<R: Wait>(
        rt: &R,
        alloc: Global,
        first: Accepted,
        workers: u32,
    ) -> Result<Router, OutOfMemory>
        requires { (1 ≤ workers) × (workers ≤ 16) }
        ensures { IfOk result (λ r. routing_of r ≡ routing workers first []) }
    {
        if workers == 1 {
            Ok(Router::Alone(Alone::new(alloc, first)))
        } else {
            Ok(Router::Crew(Crew::new(rt, alloc, first, workers)?))
        }
    }

    /// The first plan.
    pub fn first(&self) -> &Accepted
        ensures value { result.now ≡ (routing_of self.now).first }
        ensures plans { IsRouting (routing_of self.now) }
    {
        match self {
            Router::Alone(alone) => alone.first(),
            Router::Crew(crew) => crew.first(),
        }
    }

    /// How many plans were accepted.
    pub fn accepted(&self) -> u32
        ensures { result ≡ length (routing_of self.now).later + 1 }
    {
        match self {
            Router::Alone(alone) => alone.accepted(),
            Router::Crew(crew) => crew.accepted(),
        }
    }

    /// The last plan.
    pub fn latest(&self) -> &Accepted
        ensures { result.now.plan ≡ latest (standing (routing_of self.now) []) }
    {
        match self {
            Router::Alone(alone) => alone.latest(),
            Router::Crew(crew) => crew.latest(),
        }
    }

    /// Routes the messages of a batch under these states of the nodes, and accepts the plans that are in it.
    pub fn route<R: Threads + Wait + Sync, G: Gate + Sync>(
        &mut self,
        host: &Host<'_, R, G>,
        states: &[NodeState],
        settled: &[Settled],
        coming: List<Accepted>,
    ) -> Result<List<Served>, OutOfMemory>
        requires plans { ArePlans (routing_of self.old).first.plan (ahead (standing (routing_of self.old) states.now) coming).later }
        requires states { length states.now ≡ length (routing_of self.old).first.plan.nodes }
        requires fits { MayBeRouted (routing_of self.old).first.plan settled.now }
        ensures first { (routing_of self.new).first ≡ (routing_of self.old).first }
        ensures plans { IsRouting (routing_of self.new) }
        ensures at { OnOk result (standing (routing_of self.new) states.now ≡ ahead (standing (routing_of self.old) states.now) coming) }
        ensures served { IfOk result (RoutesBatch (standing (routing_of self.old) states.now)
            (ahead (standing (routing_of self.old) states.now) coming) (map settled_in settled.now)) }
    {
        match self {
            Router::Alone(alone) => alone.route(host.alloc, states, settled, coming),
            Router::Crew(crew) => crew.route(host, states, settled, coming),
        }
    }

    /// Ends the workers. It may wait for them.
    pub fn end<R: Wait>(self, rt: &R) {
        match self {
            Router::Alone(_) => {}
            Router::Crew(crew) => crew.end(rt),
        }
    }
}
