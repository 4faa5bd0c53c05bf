//! Several workers, who route the messages of a replay beside each other.
ghost use Rattle.std.specs.Prelude.{◌≡◌, ◌+◌, ◌^◌, ◌<◌, ◌≤◌, [], ◌∷◌, ◌++◌, map, length, IfOk, OnOk};
ghost use Rattle.sccp_replay.specs.Replay.{latest};
ghost use Rattle.sccp_replay.specs.Replayers.{MayBeRouted, RoutesBatch, jobs_from, settled_in};
ghost use Rattle.sccp_replay.specs.Routings.{ArePlans, IsRouting, ahead, routing, standing};

use crate::settled::Settled;
use live_plan::{Entry, Gate, Host, Live, LivePlace, Teller, Worker, serve_jobs};
use plan_check::Accepted;
use relay_net::{Job, NodeState, Served};
use sccp_base::{List, OutOfMemory};
use std::alloc::Global;
use std::marker::Model;
use std::sync::Wait;
use std::thread::Threads;

/// Several workers, who route messages beside each other while the plans of a batch are published. It cannot be dropped:
/// `end` ends it.
pub struct Crew {
    first: Entry,
    teller: Teller,
    workers: List<Worker<LivePlace>>,
}

impl Model for Crew {
    ghost use Rattle.std.specs.Prelude.{◌≡◌, All, drop, length};
    ghost use Rattle.live_plan.specs.Entries.{entry_plan};
    ghost use Rattle.live_plan.specs.Tellers.{plans_of};
    ghost use Rattle.sccp_replay.specs.Routings.{Routing, IsCrew, routing};

    ghost Value = { Routing };

    ghost view = { λ c. routing (length c.workers) (entry_plan c.first) (drop 1 (plans_of c.teller)) };

    ghost invariant = { λ c. IsCrew (plans_of c.teller) c.teller.nodes (length c.workers) (entry_plan c.first) (drop 1 (plans_of c.teller))
        × All (λ w. w.place.nodes ≡ c.teller.nodes) c.workers };
}

/// Makes a message that is to be routed the next job.
fn add_job(alloc: Global, one: &Settled, jobs: &mut List<Job>) -> Result<(), OutOfMemory>
    requires { length jobs.old < 2 ^ 32 }
    ensures { OnOk result (jobs.new ≡ jobs.old ++ jobs_from (length jobs.old) (settled_in one.now ∷ [])) }
{
    match one {
        Settled::Prints(_) => Ok(()),
        Settled::Routes { incoming, .. } => {
            let index = jobs.as_slice().len() as u32;
            jobs.push(Job {
                index,
                entry: incoming.entry,
                origin: incoming.origin,
                octets: incoming.octets.try_clone(alloc)?,
            })
        }
    }
}

/// The messages of a batch that are to be routed.
fn jobs_of(alloc: Global, settled: &[Settled]) -> Result<List<Job>, OutOfMemory>
    requires { length settled.now ≤ 1000000 }
    ensures { IfOk result (λ jobs. jobs ≡ jobs_from 0 (map settled_in settled.now)) }
{
    let mut jobs = List::new(alloc);
    for one in settled {
        add_job(alloc, one, &mut jobs)?;
    }
    Ok(jobs)
}

impl Crew {
    /// This number of workers, with only the first plan accepted.
    pub fn new<R: Wait>(
        rt: &R,
        alloc: Global,
        first: Accepted,
        workers: u32,
    ) -> Result<Crew, OutOfMemory>
        requires { (1 < workers) × (workers ≤ 16) }
        ensures { IfOk result (λ c. c ≡ routing workers first []) }
    {
        // This call ensures that the plan is sound.
        let _plan = first.plan();
        let (teller, workers) = Live::new(rt, alloc, first, workers)?;
        match teller.last_entry() {
            Ok(entry) => Ok(Crew {
                first: entry,
                teller,
                workers,
            }),
            Err(fault) => {
                teller.end(rt);
                Err(fault)
            }
        }
    }

    /// The first plan.
    pub fn first(&self) -> &Accepted
        ensures value { result.now ≡ self.now.first }
        ensures plans { IsRouting self.now }
    {
        &self.first.plan
    }

    /// How many plans were accepted.
    pub fn accepted(&self) -> u32
        ensures { result ≡ length self.now.later + 1 }
    {
        self.teller.number()
    }

    /// The last plan.
    pub fn latest(&self) -> &Accepted
        ensures { result.now.plan ≡ latest (standing self.now []) }
    {
        self.teller.latest()
    }

    /// Routes the messages of a batch, and publishes its plans at the same time.
    pub fn route<R: Threads + Wait + Sync, G: Gate + Sync>(
        &mut self,
        host: &Host<'_, R, G>,
        states: &[NodeState],
        settled: &[Settled],
        coming: List<Accepted>,
    ) -> Result<List<Served>, OutOfMemory>
        requires plans { ArePlans self.old.first.plan (ahead (standing self.old states.now) coming).later }
        requires states { length states.now ≡ length self.old.first.plan.nodes }
        requires fits { MayBeRouted self.old.first.plan settled.now }
        ensures first { self.new.first ≡ self.old.first }
        ensures plans { IsRouting self.new }
        ensures at { OnOk result (standing self.new states.now ≡ ahead (standing self.old states.now) coming) }
        ensures served { IfOk result (RoutesBatch (standing self.old states.now) (ahead (standing self.old states.now) coming)
            (map settled_in settled.now)) }
    {
        // This call ensures that the plans are sound.
        let _first = self.first();
        let jobs = jobs_of(host.alloc, settled)?;
        let workers = &mut self.workers;
        serve_jobs(host, &mut self.teller, workers, states, &jobs, coming)
    }

    /// Ends the workers. It may wait for them.
    pub fn end<R: Wait>(self, rt: &R) {
        let Crew {
            first: _,
            teller,
            workers: _,
        } = self;
        teller.end(rt);
    }
}
