//! The answers of the shares, in the order of the jobs.
ghost use Rattle.std.specs.Prelude.{◌≡◌, ℕ, ◌+◌, ◌*◌, ◌/◌, ◌%◌, ◌<◌, ◌≤◌, length, slice_get, slice_index_or, Some, IfOk, IfSome, IsSomeAnd};
ghost use Rattle.live_plan.specs.Batches.{AllPairs, KeepsAll};

use crate::live_place::LivePlace;
use crate::worker::Worker;
use relay_net::Served;
use sccp_base::{List, OutOfMemory};
use std::alloc::Global;
use std::collections::VecDeque;

// Takes the answers that the worker keeps.
fn take_answers(worker: &mut Worker<LivePlace>) -> Option<VecDeque<Served>>
    ensures keeps { KeepsAll worker.old worker.new }
    ensures answers { result ≡ worker.old.answers }
{
    worker.answers.take()
}

// Takes the answers of all workers.
fn take_all(
    workers: &mut [Worker<LivePlace>],
    alloc: Global,
) -> Result<Vec<VecDeque<Served>>, OutOfMemory>
    ensures keeps { AllPairs KeepsAll workers.old workers.new }
    ensures long { IfOk result (λ shares. length shares.items ≡ length workers.old) }
    ensures answers { IfOk result (λ shares. (i : ℕ) (w : _) (d : _) → i < length workers.old
        → (slice_index_or workers.old i w).answers ≡ Some (slice_index_or shares.items i d)) }
{
    let mut shares = Vec::new(alloc);
    for k in 0..workers.len() {
        let Some(answers) = take_answers(&mut workers[k]) else {
            return Err(OutOfMemory);
        };
        shares.push(answers)?;
    }
    Ok(shares)
}

// Takes one answer from each share in turn, `all` of them together.
fn in_turn(
    shares: &mut [VecDeque<Served>],
    alloc: Global,
    all: usize,
) -> Result<List<Served>, OutOfMemory>
    requires some { 0 < length shares.old }
    requires enough { (i : ℕ) (d : _) → i < length shares.old → all ≤ length (slice_index_or shares.old i d).items * length shares.old + i }
    ensures long { IfOk result (λ answers. length answers ≡ all) }
    ensures each { IfOk result (λ answers. (i : ℕ) (d : _) → i < all
        → slice_get answers i ≡ slice_get (slice_index_or shares.old (i % length shares.old) d).items (i / length shares.old)) }
{
    let mut answers = List::from_vec(Vec::with_capacity(alloc, all)?);
    while answers.as_slice().len() < all {
        let share = answers.as_slice().len() % shares.len();
        let Some(served) = shares[share].pop_front() else {
            unreachable!()
        };
        answers.push(served)?;
    }
    Ok(answers)
}

/// The answers of all shares, in the order of the jobs. An error is lack of memory, here or of a worker.
pub(crate) fn collect(
    alloc: Global,
    all: usize,
    workers: &mut [Worker<LivePlace>],
) -> Result<List<Served>, OutOfMemory>
    requires some { 0 < length workers.old }
    requires enough { (i : ℕ) (d : _) → i < length workers.old
        → IfSome (slice_index_or workers.old i d).answers (λ q. all ≤ length q.items * length workers.old + i) }
    ensures keeps { AllPairs KeepsAll workers.old workers.new }
    ensures long { IfOk result (λ answers. length answers ≡ all) }
    ensures each { IfOk result (λ answers. (i : ℕ) (d : _) → i < all
        → IsSomeAnd (slice_index_or workers.old (i % length workers.old) d).answers
        (λ q. slice_get answers i ≡ slice_get q.items (i / length workers.old))) }
{
    let mut shares = take_all(workers, alloc)?;
    in_turn(shares.as_mut_slice(), alloc, all)
}
