//! A batch without further plans, under the last plan.
ghost use Rattle.std.specs.Prelude.{◌≡◌, ◌+◌, ◌^◌, ◌<◌, ◌≤◌, ◌++◌, All, length, IfOk, OnOk};
ghost use mathlib.Core.List.{IsPrefix};
ghost use Rattle.live_plan.specs.Batches.{AllPairs, AreServed, IsByEvents, Lasts, SeesMore};
ghost use Rattle.live_plan.specs.Plans.{HaveNodes};
ghost use Rattle.live_plan.specs.Tellers.{told_by, plans_of};

use crate::batch::{WORTHWHILE, run_batch};
use crate::blocks::serve_blocks;
use crate::gate::Gate;
use crate::host::Host;
use crate::live_place::LivePlace;
use crate::setting::Setting;
use crate::teller::Teller;
use crate::worker::Worker;
use plan_check::Accepted;
use relay_net::{Job, NodeState, Served};
use sccp_base::{List, OutOfMemory};
use std::sync::Wait;
use std::thread::Threads;

// The number of threads that the jobs are worth, and at most that of shares and of processors.
fn threads_for<R: Threads>(rt: &R, teller: &mut Teller, shares: usize, jobs: usize) -> usize
    ensures told { told_by teller.new ≡ told_by teller.old }
    ensures nodes { teller.new.nodes ≡ teller.old.nodes }
{
    let worth = (jobs / WORTHWHILE).min(shares);
    if worth < 2 {
        return 1;
    }
    worth.min(teller.processors(rt))
}

// Serves all jobs under the publisher's last plan. Nothing can be published meanwhile, so no worker needs to look.
fn serve_latest<R: Threads + Sync, G: Gate + Sync>(
    host: &Host<'_, R, G>,
    threads: usize,
    teller: &Teller,
    workers: usize,
    states: &[NodeState],
    jobs: &[Job],
) -> Result<List<Served>, OutOfMemory>
    requires workers { (0 < workers) × (workers ≤ 16) }
    requires states { length states.now ≡ teller.now.nodes }
    requires entries { All (λ job. job.entry < teller.now.nodes) jobs.now }
    ensures { IfOk result (AreServed (plans_of teller.now) states.now jobs.now workers (length (plans_of teller.now))) }
{
    let setting = Setting {
        number: teller.number(),
        plan: teller.latest(),
        states,
        workers: workers as u32,
    };
    serve_blocks(host, threads, &setting, jobs)
}

/// Serves a batch of jobs as `run_batch` does, or faster if there are no further plans. Then all jobs go under the last plan,
/// each thread takes the next few jobs when it has served some, and the workers rest. The only error is lack of memory.
pub fn serve_jobs<R: Threads + Wait + Sync, G: Gate + Sync>(
    host: &Host<'_, R, G>,
    teller: &mut Teller,
    workers: &mut List<Worker<LivePlace>>,
    states: &[NodeState],
    jobs: &List<Job>,
    plans: List<Accepted>,
) -> Result<List<Served>, OutOfMemory>
    requires count { (0 < length workers.old) × (length workers.old ≤ 16) }
    requires made { All (λ w. w.place.nodes ≡ teller.old.nodes) workers.old }
    requires states { length states.now ≡ teller.old.nodes }
    requires entries { All (λ job. job.entry < teller.old.nodes) jobs.now }
    requires nodes { HaveNodes teller.old.nodes plans }
    requires room { length (plans_of teller.old) + length plans < 2 ^ 32 }
    ensures published { OnOk result (plans_of teller.new ≡ plans_of teller.old ++ plans) }
    ensures served { IfOk result (λ answers. AreServed (plans_of teller.new) states.now jobs.now (length workers.old)
        (length (plans_of teller.old)) answers) }
    ensures lasts { AllPairs (Lasts (length (plans_of teller.old))) workers.old workers.new }
    ensures sees { AllPairs (SeesMore (plans_of teller.old) (plans_of teller.new)) workers.old workers.new }
    ensures events { IsByEvents (plans_of teller.old) (plans_of teller.new) workers.old workers.new }
    ensures begins { IsPrefix (plans_of teller.old) (plans_of teller.new) }
    ensures within { IsPrefix (plans_of teller.new) (plans_of teller.old ++ plans) }
    ensures nodes { teller.new.nodes ≡ teller.old.nodes }
{
    if plans.as_slice().is_empty() {
        let jobs = jobs.as_slice();
        let shares = workers.as_slice().len();
        let threads = threads_for(host.rt, teller, shares, jobs.len());
        return serve_latest(host, threads, teller, shares, states, jobs);
    }
    run_batch(host, teller, workers, states, jobs, plans)
}
