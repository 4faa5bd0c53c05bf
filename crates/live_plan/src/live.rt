//! The start: a publisher and its workers.
ghost use Rattle.std.specs.Prelude.{◌≡◌, ℕ, ◌<◌, ◌≤◌, ◌∷◌, [], length, slice_index_or, IfOk};
ghost use Rattle.live_plan.specs.Batches.{IsHired};
ghost use Rattle.live_plan.specs.Plans.{nodes_of};
ghost use Rattle.live_plan.specs.Tellers.{told_by, plans_of, due_of};

use crate::briefing::brief_all;
use crate::live_place::LivePlace;
use crate::teller::{Teller, open};
use crate::worker::Worker;
use plan_check::Accepted;
use sccp_base::{List, OutOfMemory};
use std::alloc::Global;
use std::sync::Wait;

/// A plan that is replaced while workers route by it: its publisher and its workers.
pub struct Live;

// A worker with the publisher's last plan, and without a reader.
fn hired(alloc: Global, teller: &Teller, index: u32) -> Result<Worker<LivePlace>, OutOfMemory>
    ensures index { IfOk result (λ w. w.index ≡ index) }
    ensures nodes { IfOk result (λ w. w.place.nodes ≡ teller.now.nodes) }
{
    let first = teller.last_entry()?;
    let place = LivePlace::vacant(alloc, teller.nodes());
    Ok(Worker::over(index, place, first))
}

// The given number of workers, without readers.
fn all_hired(
    alloc: Global,
    teller: &Teller,
    workers: u32,
) -> Result<Vec<Worker<LivePlace>>, OutOfMemory>
    ensures count { IfOk result (λ all. length all.items ≡ workers) }
    ensures index { IfOk result (λ all. (i : ℕ) (d : _) → i < workers → (slice_index_or all.items i d).index ≡ i) }
    ensures nodes { IfOk result (λ all. (i : ℕ) (d : _) → i < workers → (slice_index_or all.items i d).place.nodes ≡ teller.now.nodes) }
{
    let mut all = Vec::new(alloc);
    for index in 0..workers {
        let worker = hired(alloc, teller, index)?;
        all.push(worker)?;
    }
    Ok(all)
}

// The given number of workers, who know what the publisher knows.
fn hire(
    alloc: Global,
    teller: &mut Teller,
    workers: u32,
) -> Result<List<Worker<LivePlace>>, OutOfMemory>
    ensures count { IfOk result (λ all. length all ≡ workers) }
    ensures each { IfOk result (λ all. (i : ℕ) (d : _) → i < workers
        → IsHired (due_of teller.old) (length (plans_of teller.old)) teller.old.nodes i (slice_index_or all i d)) }
    ensures told { told_by teller.new ≡ told_by teller.old }
    ensures nodes { teller.new.nodes ≡ teller.old.nodes }
{
    let mut all = all_hired(alloc, teller, workers)?;
    brief_all(all.as_mut_slice(), teller)?;
    Ok(List::from_vec(all))
}

impl Live {
    /// The publisher, with only this plan, and the given number of workers, from 1 to 16, which keep the plan. A worker for
    /// which no reader can be had is there too, and its entries are refused. The only error is lack of memory.
    pub fn new<R: Wait>(
        rt: &R,
        alloc: Global,
        first: Accepted,
        workers: u32,
    ) -> Result<(Teller, List<Worker<LivePlace>>), OutOfMemory>
        requires { (0 < workers) × (workers ≤ 16) }
        ensures plans { IfOk result (λ t. plans_of t.0 ≡ first ∷ []) }
        ensures nodes { IfOk result (λ t. t.0.nodes ≡ nodes_of first) }
        ensures count { IfOk result (λ t. length t.1 ≡ workers) }
        ensures workers { IfOk result (λ t. (i : ℕ) (d : _) → i < workers
            → IsHired (first ∷ []) 1 (nodes_of first) i (slice_index_or t.1 i d)) }
    {
        let mut teller = open(rt, alloc, first)?;
        match hire(alloc, &mut teller, workers) {
            Ok(all) => Ok((teller, all)),
            Err(e) => {
                teller.end(rt);
                Err(e)
            }
        }
    }
}
