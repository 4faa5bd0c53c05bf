//! A batch of jobs, during which plans are published.
ghost use Rattle.std.specs.Prelude.{◌≡◌, ℕ, ◌+◌, ◌^◌, ◌<◌, ◌≤◌, ◌++◌, List, All, length, slice_index_or, IfOk, OnOk, OnErr};
ghost use Rattle.std.specs.Thread.{IsSync};
ghost use mathlib.Core.List.{IsPrefix};
ghost use Rattle.std.specs.Arc.{arc_value};
ghost use Rattle.live_plan.specs.Plans.{HaveNodes, nodes_of};
ghost use Rattle.live_plan.specs.Batches.{AllPairs, AreServed, Counted, Follows, HasServed, IsByEvents, Lasts, Rests, SeesMore};
ghost use Rattle.live_plan.specs.Publishing.{HasPublished};
ghost use Rattle.live_plan.specs.Tellers.{told_by, plans_of, due_of};

use crate::briefing::brief_all;
use crate::collecting::collect;
use crate::gate::Gate;
use crate::host::Host;
use crate::job_batch::JobBatch;
use crate::live_place::LivePlace;
use crate::publishing::publish_all;
use crate::resting::{rest_all, spare_plans};
use crate::share::keep_share;
use crate::side_by_side::for_each_beside;
use crate::teller::Teller;
use crate::worker::Worker;
use plan_check::Accepted;
use relay_net::{Job, NodeState, Served};
use sccp_base::{List, OutOfMemory};
use std::alloc::Global;
use std::collections::VecDeque;
use std::sync::{Arc, Wait};
use std::thread;
use std::thread::Threads;

/// The number of jobs that are worth a thread.
pub(crate) const WORTHWHILE: usize = 16;

// Each worker serves its share.
fn serve_all<R: Threads + Sync, G: Gate + Sync>(
    host: &Host<'_, R, G>,
    batch: &JobBatch<'_>,
    workers: &mut [Worker<LivePlace>],
)
    requires count { (0 < length workers.old) × (length workers.old ≤ 16) }
    requires states { All (λ w. w.place.nodes ≡ length batch.now.states.now) workers.old }
    ensures { (i : ℕ) (d : _) → i < length workers.old
        → HasServed batch.now (length workers.old) i (slice_index_or workers.old i d) (slice_index_or workers.new i d) }
{
    let count = workers.len();
    let gate = host.gate;
    let alloc = host.alloc;
    for_each_beside(
        host.rt,
        workers,
        batch.threads,
        &|share: usize, worker: &mut Worker<LivePlace>|
            requires { (0 < count) × (count ≤ 16) × (share < count) × (worker.now.place.nodes ≡ length batch.now.states.now) }
            ensures { HasServed batch.entry.now count share worker.entry.now worker.exit.now }
        { keep_share(alloc, batch, count, share, gate, worker) },
    );
}

// Each worker serves its share, while the plans are published.
fn serve_beside<R: Threads + Wait + Sync, G: Gate + Sync>(
    host: &Host<'_, R, G>,
    batch: &JobBatch<'_>,
    teller: &mut Teller,
    plans: &mut VecDeque<Accepted>,
    workers: &mut [Worker<LivePlace>],
) -> Result<(), OutOfMemory>
    requires due { due_of teller.old ≡ plans_of teller.old ++ plans.old.items }
    requires count { (0 < length workers.old) × (length workers.old ≤ 16) }
    requires states { All (λ w. w.place.nodes ≡ length batch.now.states.now) workers.old }
    ensures published { HasPublished teller.old teller.new result }
    ensures served { (i : ℕ) (d : _) → i < length workers.old
        → HasServed batch.now (length workers.old) i (slice_index_or workers.old i d) (slice_index_or workers.new i d) }
{
    if plans.is_empty() {
        serve_all(host, batch, workers);
        return Ok(());
    }
    let rt = host.rt;
    let gate = host.gate;
    let (published, ()) = thread::join_mut(
        rt,
        &mut || -> Result<(), OutOfMemory>
            requires { due_of teller.now ≡ plans_of teller.now ++ plans.now.items }
            ensures { HasPublished teller.entry.now teller.exit.now result }
        { publish_all(rt, gate, teller, plans) },
        &mut ||
            requires { IsSync R.row × IsSync G.row × (0 < length workers.now) × (length workers.now ≤ 16)
                × All (λ w. w.place.nodes ≡ length batch.now.states.now) workers.now }
            ensures { (i : ℕ) (d : _) → i < length workers.entry.now
                → HasServed batch.entry.now (length workers.entry.now) i (slice_index_or workers.entry.now i d)
                (slice_index_or workers.exit.now i d) }
        { serve_all(host, batch, workers) },
    );
    published
}

// The same. If memory was lacking for a plan, each worker rests with the last plan from before the batch: no clause says that what it
// has seen meanwhile is still published.
fn serve_or_rest<R: Threads + Wait + Sync, G: Gate + Sync>(
    host: &Host<'_, R, G>,
    batch: &JobBatch<'_>,
    teller: &mut Teller,
    plans: &mut VecDeque<Accepted>,
    workers: &mut [Worker<LivePlace>],
    spares: Vec<Arc<Arc<Accepted>>>,
) -> Result<(), OutOfMemory>
    requires due { due_of teller.old ≡ plans_of teller.old ++ plans.old.items }
    requires count { (0 < length workers.old) × (length workers.old ≤ 16) }
    requires states { All (λ w. w.place.nodes ≡ length batch.now.states.now) workers.old }
    requires enough { length workers.old ≤ length spares.items }
    requires spares { All (λ plan. nodes_of (arc_value (arc_value plan)) ≡ length batch.now.states.now) spares.items }
    ensures published { HasPublished teller.old teller.new result }
    ensures served { OnOk result ((i : ℕ) (d : _) → i < length workers.old
        → HasServed batch.now (length workers.old) i (slice_index_or workers.old i d) (slice_index_or workers.new i d)) }
    ensures rests { OnErr result ((i : ℕ) (d : _) → i < length workers.old
        → Rests (length (plans_of teller.old)) (slice_index_or workers.old i d) (slice_index_or workers.new i d)) }
{
    let number = teller.number();
    match serve_beside(host, batch, teller, plans, workers) {
        Ok(()) => Ok(()),
        Err(OutOfMemory) => {
            rest_all(workers, number, spares);
            Err(OutOfMemory)
        }
    }
}

// The number of threads that the jobs are worth, and at most that of shares and of processors. Four jobs are worth a second
// one.
fn threads_for<R: Threads>(rt: &R, teller: &mut Teller, shares: usize, jobs: usize) -> usize
    ensures some { 0 < result }
    ensures told { told_by teller.new ≡ told_by teller.old }
    ensures nodes { teller.new.nodes ≡ teller.old.nodes }
{
    if jobs < 4 {
        return 1;
    }
    let worth = (jobs / WORTHWHILE).min(shares);
    if worth < 3 {
        2
    } else {
        worth.min(teller.processors(rt))
    }
}

// Briefs the workers, serves the jobs while these plans are published, and collects the answers.
fn serve_batch<R: Threads + Wait + Sync, G: Gate + Sync>(
    host: &Host<'_, R, G>,
    states: &[NodeState],
    jobs: &[Job],
    teller: &mut Teller,
    plans: &mut VecDeque<Accepted>,
    workers: &mut [Worker<LivePlace>],
) -> Result<List<Served>, OutOfMemory>
    requires due { due_of teller.old ≡ plans_of teller.old ++ plans.old.items }
    requires count { (0 < length workers.old) × (length workers.old ≤ 16) }
    requires made { All (λ w. w.place.nodes ≡ teller.old.nodes) workers.old }
    requires states { length states.now ≡ teller.old.nodes }
    requires entries { All (λ job. job.entry < teller.old.nodes) jobs.now }
    ensures published { OnOk result (plans_of teller.new ≡ due_of teller.old) }
    ensures served { IfOk result (λ answers. AreServed (plans_of teller.new) states.now jobs.now (length workers.old)
        (length (plans_of teller.old)) answers) }
    ensures counted { OnOk result ((i : ℕ) (d : _) → i < length workers.old → i < length jobs.now
        → Counted (slice_index_or workers.old i d) (slice_index_or workers.new i d)) }
    ensures follows { OnOk result ((i : ℕ) (d : _) → i < length workers.old
        → Follows (plans_of teller.new) (slice_index_or workers.new i d)) }
    ensures lasts { AllPairs (Lasts (length (plans_of teller.old))) workers.old workers.new }
    ensures sees { AllPairs (SeesMore (plans_of teller.old) (plans_of teller.new)) workers.old workers.new }
    ensures begins { IsPrefix (plans_of teller.old) (plans_of teller.new) }
    ensures within { IsPrefix (plans_of teller.new) (due_of teller.old) }
    ensures nodes { teller.new.nodes ≡ teller.old.nodes }
{
    brief_all(workers, teller)?;
    let spares = spare_plans(host.alloc, teller, workers.len())?;
    let threads = threads_for(host.rt, teller, workers.len(), jobs.len());
    let batch = JobBatch {
        states,
        jobs,
        threads,
    };
    serve_or_rest(host, &batch, teller, plans, workers, spares)?;
    collect(host.alloc, jobs.len(), workers)
}

/// Serves a batch of jobs while these plans are published, one after the other. Each job is answered with the number of its
/// plan, in the order of the jobs.
///
/// Job i belongs to share i modulo the number of workers, and worker k serves share k in order. Each message goes over all
/// its relays under one plan: the last one from before the batch, or one that is published in it. In a share no earlier plan
/// follows.
///
/// What a worker sees of the published plans begins with what it saw before, and the number of its plan does not fall. That is so
/// after an error too.
///
/// The only error is lack of memory. Then some of the plans may be published, the first ones, and jobs may have been served. If
/// not all of them are published, the workers keep the last plan from before the batch.
pub fn run_batch<R: Threads + Wait + Sync, G: Gate + Sync>(
    host: &Host<'_, R, G>,
    teller: &mut Teller,
    workers: &mut List<Worker<LivePlace>>,
    states: &[NodeState],
    jobs: &List<Job>,
    plans: List<Accepted>,
) -> Result<List<Served>, OutOfMemory>
    requires count { (0 < length workers.old) × (length workers.old ≤ 16) }
    requires made { All (λ w. w.place.nodes ≡ teller.old.nodes) workers.old }
    requires states { length states.now ≡ teller.old.nodes }
    requires entries { All (λ job. job.entry < teller.old.nodes) jobs.now }
    requires nodes { HaveNodes teller.old.nodes plans }
    requires room { length (plans_of teller.old) + length plans < 2 ^ 32 }
    ensures published { OnOk result (plans_of teller.new ≡ plans_of teller.old ++ plans) }
    ensures served { IfOk result (λ answers. AreServed (plans_of teller.new) states.now jobs.now (length workers.old)
        (length (plans_of teller.old)) answers) }
    ensures counted { OnOk result ((i : ℕ) (d : _) → i < length workers.old → i < length jobs.now
        → Counted (slice_index_or workers.old i d) (slice_index_or workers.new i d)) }
    ensures follows { OnOk result ((i : ℕ) (d : _) → i < length workers.old
        → Follows (plans_of teller.new) (slice_index_or workers.new i d)) }
    ensures lasts { AllPairs (Lasts (length (plans_of teller.old))) workers.old workers.new }
    ensures sees { AllPairs (SeesMore (plans_of teller.old) (plans_of teller.new)) workers.old workers.new }
    ensures events { IsByEvents (plans_of teller.old) (plans_of teller.new) workers.old workers.new }
    ensures begins { IsPrefix (plans_of teller.old) (plans_of teller.new) }
    ensures within { IsPrefix (plans_of teller.new) (plans_of teller.old ++ plans) }
    ensures nodes { teller.new.nodes ≡ teller.old.nodes }
{
    teller.begin(host.rt, &plans)?;
    let mut coming = VecDeque::from_vec(plans.into_vec());
    let jobs = jobs.as_slice();
    let workers = workers.as_mut_slice();
    serve_batch(host, states, jobs, teller, &mut coming, workers)
}
