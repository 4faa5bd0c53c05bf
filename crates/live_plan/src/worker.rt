//! A worker: it looks at the published plans before each job, and routes the job.
ghost use Rattle.std.specs.Prelude.{◌≡◌, ◌⊎◌, ◌<◌, ◌≤◌, length, None, IfOk, IfSome};
ghost use Rattle.live_plan.specs.Entries.{entry_plan};
ghost use Rattle.live_plan.specs.Plans.{HasPlan, IsKept, Rose, nodes_of};
ghost use Rattle.live_plan.specs.Routed.{journey_under};

use crate::gate::Gate;
use crate::nodes::count_nodes;
use crate::place::{Entry, Place};
use plan_check::Accepted;
use relay_net::{Job, NodeState, Served, journey};
use sccp_base::OutOfMemory;
use std::alloc::Global;
use std::collections::VecDeque;

// Routes a job over all its relays under one plan, which has this number.
pub(crate) fn route(
    alloc: Global,
    number: u32,
    plan: &Accepted,
    states: &[NodeState],
    job: &Job,
) -> Result<Served, OutOfMemory>
    requires entry { job.now.entry < nodes_of plan.now }
    requires states { length states.now ≡ nodes_of plan.now }
    ensures number { IfOk result (λ served. served.number ≡ number) }
    ensures journey { IfOk result (λ served. served.journey ≡ journey_under plan.now states.now job.now) }
{
    let journey = journey(
        alloc,
        plan,
        states,
        job.entry,
        job.origin,
        job.octets.as_slice(),
    )?;
    Ok(Served { number, journey })
}

/// A worker with its place, and the plan that it keeps and routes by.
#[derive(Drop)]
pub struct Worker<P: Place> {
    pub(crate) index: u32,
    pub(crate) place: P,
    pub(crate) kept: Entry,
    /// The answers of its share of a batch, until they are collected.
    pub(crate) answers: Option<VecDeque<Served>>,
    ghost keeps: { IsKept (P.plans place) (P.seen place) (P.nodes place) kept.number (entry_plan kept) },
}

impl<P: Place> Worker<P> {
    /// A worker over a place, which keeps the plan that it is handed. Gates learn its index.
    pub fn over(index: u32, place: P, first: Entry) -> Worker<P>
        requires { IsKept (P.plans place) (P.seen place) (P.nodes place) first.number (entry_plan first) }
        ensures { (result.index ≡ index) × (result.place ≡ place) × (result.kept ≡ first) }
    {
        Worker {
            index,
            place,
            kept: first,
            answers: None,
        }
    }

    /// The number of the plan that it keeps.
    pub fn seen(&self) -> u32
        ensures { result ≡ self.now.kept.number }
    {
        self.kept.number
    }

    /// The number of nodes of each plan that it routes by.
    pub fn nodes(&self) -> u8
        ensures { result ≡ P.nodes self.now.place }
    {
        count_nodes(&self.kept.plan)
    }

    // Enters the published plans once, and keeps the plan of that entry. If it was refused, the worker keeps the plan from
    // before.
    fn look(&mut self)
        ensures index { self.new.index ≡ self.old.index }
        ensures nodes { P.nodes self.new.place ≡ P.nodes self.old.place }
        ensures plans { P.plans self.new.place ≡ P.plans self.old.place }
        ensures entered { Rose (P.entries self.old.place) (P.entries self.new.place)
            ⊎ Rose (P.refusals self.old.place) (P.refusals self.new.place) }
        ensures counts { (P.entries self.old.place ≤ P.entries self.new.place) × (P.refusals self.old.place ≤ P.refusals self.new.place) }
        ensures seen { P.seen self.old.place ≤ P.seen self.new.place }
        ensures told { IfSome (P.plans self.new.place) (λ l. (self.new.kept.number ≡ P.seen self.new.place)
            × HasPlan l self.new.kept.number (entry_plan self.new.kept)) }
        ensures untold { P.plans self.old.place ≡ None → self.new.kept ≡ self.old.kept }
        ensures rises { self.old.kept.number ≤ self.new.kept.number }
        ensures routes { nodes_of (entry_plan self.new.kept) ≡ P.nodes self.old.place }
    {
        if let Some(entry) = self.place.enter() {
            self.kept = entry;
        }
    }

    /// Passes the gate, enters the published plans once, and routes the job over all its relays under the plan that it then
    /// keeps. That is the plan of this entry or, if it was refused, the one from before. The only error is lack of memory; a
    /// new plan may be kept even so.
    pub fn serve<G: Gate>(
        &mut self,
        alloc: Global,
        states: &[NodeState],
        job: &Job,
        gate: &G,
    ) -> Result<Served, OutOfMemory>
        requires entry { job.now.entry < P.nodes self.old.place }
        requires states { length states.now ≡ P.nodes self.old.place }
        ensures index { self.new.index ≡ self.old.index }
        ensures nodes { P.nodes self.new.place ≡ P.nodes self.old.place }
        ensures plans { P.plans self.new.place ≡ P.plans self.old.place }
        ensures entered { Rose (P.entries self.old.place) (P.entries self.new.place)
            ⊎ Rose (P.refusals self.old.place) (P.refusals self.new.place) }
        ensures counts { (P.entries self.old.place ≤ P.entries self.new.place) × (P.refusals self.old.place ≤ P.refusals self.new.place) }
        ensures seen { P.seen self.old.place ≤ P.seen self.new.place }
        ensures told { IfSome (P.plans self.new.place) (λ l. (self.new.kept.number ≡ P.seen self.new.place)
            × HasPlan l self.new.kept.number (entry_plan self.new.kept)) }
        ensures untold { P.plans self.old.place ≡ None → self.new.kept ≡ self.old.kept }
        ensures rises { self.old.kept.number ≤ self.new.kept.number }
        ensures number { IfOk result (λ served. served.number ≡ self.new.kept.number) }
        ensures journey { IfOk result (λ served. served.journey ≡ journey_under (entry_plan self.new.kept) states.now job.now) }
    {
        gate.pass(self.index, job.index);
        self.look();
        route(alloc, self.kept.number, &self.kept.plan, states, job)
    }
}
