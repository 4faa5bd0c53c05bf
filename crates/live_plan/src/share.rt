//! A worker's share of a batch: the jobs whose index, modulo the number of workers, is the worker's.
ghost use Rattle.std.specs.Prelude.{◌≡◌, ◌*◌, ◌+◌, ◌<◌, ◌≤◌, List, [], All, length, IfOk};
ghost use Rattle.plan_check.specs.Verified.{Verified};
ghost use Rattle.live_plan.specs.Batches.{IsShare, GoesOn, Follows, Counted, HasServed};

use crate::gate::Gate;
use crate::job_batch::JobBatch;
use crate::place::Place;
use crate::worker::Worker;
use relay_net::Served;
use sccp_base::OutOfMemory;
use std::alloc::Global;
use std::collections::VecDeque;

// An empty queue of answers, with room for this many if memory allows.
fn room_for(alloc: Global, answers: usize) -> VecDeque<Served>
    ensures { result.items ≡ [] }
{
    match VecDeque::with_capacity(alloc, answers) {
        Ok(room) => room,
        Err(_) => VecDeque::new(alloc),
    }
}

// Serves every count-th job, from `share` on.
pub(crate) fn serve_from<P: Place, G: Gate>(
    alloc: Global,
    batch: &JobBatch<'_>,
    count: usize,
    share: usize,
    gate: &G,
    worker: &mut Worker<P>,
) -> Result<VecDeque<Served>, OutOfMemory>
    requires count { (0 < count) × (count ≤ 16) × (share < count) }
    requires states { length batch.now.states.now ≡ P.nodes worker.old.place }
    ensures goes_on { GoesOn worker.old worker.new }
    ensures counted { share < length batch.now.jobs.now → Counted worker.old worker.new }
    ensures all { IfOk result (λ answers. length batch.now.jobs.now ≤ length answers.items * count + share) }
    ensures served { IfOk result (λ answers. (plans : List Verified) → Follows plans worker.old
        → IsShare plans batch.now count share worker.old.kept.number worker.new.kept.number answers.items) }
{
    let jobs = batch.jobs;
    let mut answers = room_for(alloc, jobs.len() / count + 1);
    let mut at = share;
    while at < jobs.len() {
        let served = worker.serve(alloc, batch.states, &jobs[at], gate)?;
        answers.push_back(served)?;
        at += count;
    }
    Ok(answers)
}

/// Serves a share. The worker keeps the answers, or none if memory was lacking.
pub(crate) fn keep_share<P: Place, G: Gate>(
    alloc: Global,
    batch: &JobBatch<'_>,
    count: usize,
    share: usize,
    gate: &G,
    worker: &mut Worker<P>,
)
    requires count { (0 < count) × (count ≤ 16) × (share < count) }
    requires states { length batch.now.states.now ≡ P.nodes worker.old.place }
    ensures { HasServed batch.now count share worker.old worker.new }
{
    worker.answers = serve_from(alloc, batch, count, share, gate, worker).ok();
}
