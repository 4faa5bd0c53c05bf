//! The state of a replay that is under way.
ghost use Rattle.std.specs.Prelude.{◌≡◌, ◌<◌, ◌≤◌, ◌+◌, ◌^◌, ◌++◌, [], ◌∷◌, map, length, IfOk, OnOk, OnErr, Some};
ghost use Rattle.plan_model.specs.Network.{IsPlan};
ghost use Rattle.plan_model.specs.SameNodes.{SameNodes};
ghost use Rattle.relay_net.specs.Batches.{CanBeDone, applied_after, due_after};
ghost use Rattle.std.specs.Option.{option_map};
ghost use Rattle.sccp_report.specs.Roles.{StandsIn, alone, as_due};
ghost use Rattle.sccp_replay.specs.Incoming.{incoming_in};
ghost use Rattle.sccp_replay.specs.Replay.{accepted, done_alone, later_file, start};
ghost use Rattle.sccp_replay.specs.Replayers.{IsStanding, MayBeRouted, RoutesBatch, settled_in};
ghost use Rattle.sccp_replay.specs.Routers.{routing_of};
ghost use Rattle.sccp_replay.specs.Routings.{ArePlans, AtMostOneMore, HasRoom, ahead, standing};

use crate::incoming::Incoming;
use crate::router::Router;
use crate::settled::Settled;
use live_plan::{Gate, Host};
use plan_check::Accepted;
use plan_model::{Limits, Plan};
use relay_net::{Journey, Net, Outcome, Served};
use sccp_base::{List, OutOfMemory};
use sccp_report::Due;
use sccp_work::PlanPath;
use std::alloc::Global;
use std::marker::Model;
use std::sync::Wait;
use std::thread::Threads;

/// A replay that is under way: who routes its messages, under the plans that were accepted, and what the nodes keep. It
/// cannot be dropped: `end` ends it.
pub struct Replayer {
    alloc: Global,
    by: Router,
    net: Net,
}

impl Model for Replayer {
    ghost use Rattle.sccp_replay.specs.Replay.{Standing};
    ghost use Rattle.sccp_replay.specs.Replayers.{IsStanding};
    ghost use Rattle.sccp_replay.specs.Routers.{routing_of};
    ghost use Rattle.sccp_replay.specs.Routings.{standing};

    ghost Value = { Standing };

    ghost view = { λ r. standing (routing_of r.by) r.net };

    ghost invariant = { λ r. IsStanding (standing (routing_of r.by) r.net) };
}

/// Does what is due under the latest plan.
fn apply(by: &Router, net: &mut Net, due: Due) -> Result<List<Outcome>, OutOfMemory>
    requires standing { IsStanding (standing (routing_of by.now) net.old) }
    requires due { StandsIn (routing_of by.now).first.plan (alone (Some (as_due due))) }
    ensures states { OnOk result (net.new ≡ (done_alone (standing (routing_of by.now) net.old) (Some (as_due due))).states) }
    ensures outcomes { IfOk result (λ os. os ≡ (done_alone (standing (routing_of by.now) net.old) (Some (as_due due))).outcomes) }
    ensures err { OnErr result (net.new ≡ net.old) }
{
    let latest = by.latest();
    net.apply(latest.plan(), due.node, due.what)
}

impl Replayer {
    /// The state of a replay whose first plan was accepted. It keeps the allocator for all that it does later.
    pub fn new<R: Wait>(
        rt: &R,
        alloc: Global,
        first: Accepted,
        workers: u32,
    ) -> Result<Replayer, OutOfMemory>
        requires { (1 ≤ workers) × (workers ≤ 16) }
        ensures { IfOk result (λ r. r ≡ start workers first.plan) }
    {
        match Net::new(alloc, first.plan()) {
            Ok(net) => match Router::new(rt, alloc, first, workers) {
                Ok(by) => Ok(Replayer { alloc, by, net }),
                Err(fault) => {
                    drop(net);
                    Err(fault)
                }
            },
            Err(fault) => {
                drop(first);
                Err(fault)
            }
        }
    }

    /// The allocator of all that it does.
    pub fn alloc(&self) -> Global {
        self.alloc
    }

    /// The first plan. Each later one has its nodes.
    pub fn first(&self) -> &Plan
        ensures value { result.now ≡ self.now.first }
        ensures sound { IsPlan self.now.first }
        ensures plans { ArePlans self.now.first self.now.later }
    {
        self.by.first().plan()
    }

    /// The limits under which its plans are read.
    pub fn limits(&self) -> Limits
        ensures { result ≡ self.now.first.limits }
    {
        self.first().limits()
    }

    /// The file of a later plan.
    pub fn later_file<'a>(&self, name: &'a str) -> PlanPath<'a>
        ensures { result ≡ later_file self.now name.now }
    {
        PlanPath::new(name, self.limits())
    }

    /// How many plans were accepted so far, with those of this batch.
    pub fn accepted(&self, coming: &List<Accepted>) -> u32
        requires { ArePlans self.now.first (ahead self.now coming.now).later }
        ensures value { result ≡ accepted (ahead self.now coming.now) }
        ensures few { result + 1 < 2 ^ 32 }
    {
        self.by.accepted() + coming.as_slice().len() as u32
    }

    /// Adds one more plan to those of this batch.
    pub fn accept(&self, coming: &mut List<Accepted>, plan: Accepted) -> Result<(), OutOfMemory>
        requires plans { HasRoom self.now.first (ahead self.now coming.old).later }
        requires same { SameNodes self.now.first plan.plan }
        ensures plans { OnOk result (AtMostOneMore self.now.first (ahead self.now coming.old).later (ahead self.now coming.new).later) }
        ensures ok { OnOk result (ahead self.now coming.new
            ≡ record (ahead self.now coming.old) { later = (ahead self.now coming.old).later ++ plan.plan ∷ [] }) }
    {
        // This call ensures that the plan is sound.
        let _plan = plan.plan();
        coming.push(plan)
    }

    /// Routes the messages of a batch under what the nodes hold prohibited, and accepts the plans of the batch.
    pub fn route<R: Threads + Wait + Sync, G: Gate + Sync>(
        &mut self,
        host: &Host<'_, R, G>,
        settled: &[Settled],
        coming: List<Accepted>,
    ) -> Result<List<Served>, OutOfMemory>
        requires plans { ArePlans self.old.first (ahead self.old coming).later }
        requires fits { MayBeRouted self.old.first settled.now }
        ensures at { OnOk result (self.new ≡ ahead self.old coming) }
        ensures served { IfOk result (RoutesBatch self.old (ahead self.old coming) (map settled_in settled.now)) }
    {
        self.by.route(host, self.net.states(), settled, coming)
    }

    /// Does what the end of a journey leaves to be done.
    pub fn apply_after(
        &mut self,
        incoming: &Incoming,
        journey: &Journey,
    ) -> Result<List<Outcome>, OutOfMemory>
        requires { CanBeDone (length self.old.first.nodes) (due_after (incoming_in incoming.now) journey.now.path journey.now.end) }
        ensures ok { OnOk result (self.new ≡ record self.old
            { states = (applied_after self.old.first self.old.states (incoming_in incoming.now) journey.now).states }) }
        ensures outcomes { IfOk result
            (λ os. os ≡ (applied_after self.old.first self.old.states (incoming_in incoming.now) journey.now).outcomes) }
    {
        let first = self.by.first();
        let entry = incoming.entry;
        let octets = incoming.octets.as_slice();
        self.net
            .apply_after(first.plan(), entry, incoming.origin, octets, journey)
    }

    /// Does what a line that ends a batch asks for, under the latest plan.
    pub fn apply_alone(&mut self, due: Option<Due>) -> Result<List<Outcome>, OutOfMemory>
        requires { StandsIn self.old.first (alone (option_map as_due due)) }
        ensures ok { OnOk result (self.new ≡ record self.old { states = (done_alone self.old (option_map as_due due)).states }) }
        ensures outcomes { IfOk result (λ os. os ≡ (done_alone self.old (option_map as_due due)).outcomes) }
    {
        match due {
            Some(due) => apply(&self.by, &mut self.net, due),
            None => Ok(List::new(self.alloc)),
        }
    }

    /// Ends the replay. It may wait for workers.
    pub fn end<R: Wait>(self, rt: &R) {
        let Replayer {
            alloc: _,
            by,
            net: _,
        } = self;
        by.end(rt);
    }
}
