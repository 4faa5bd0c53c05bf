//! Jobs that all go under one plan, in blocks. Each thread takes the next block when it has served one. So a processor that
//! is slower than the others, or begins later, serves fewer.
ghost use Rattle.std.specs.Prelude.{◌≡◌, ◌++◌, List, All, length, map, nat_eq, position, take, IfOk, IfSome, OnOk};
ghost use Rattle.relay_net.specs.declared.job.Job.{Job};
ghost use Rattle.relay_net.specs.declared.served.Served.{Served};
ghost use Rattle.live_plan.specs.Blocks.{EnterIn, HasAnswers, answer_in};

use crate::gate::Gate;
use crate::host::Host;
use crate::setting::Setting;
use crate::worker::route;
use relay_net::{Job, Served};
use sccp_base::{List, OutOfMemory};
use std::alloc::{AllocError, Global};
use std::sync::atomic::{AtomicUsize, Ordering};
use std::thread;
use std::thread::Threads;

// The number of jobs that a thread takes at once: some tens of microseconds of work.
const BLOCK: usize = 16;

/// The answers of jobs that follow one another. `from` is the place of the first job.
#[derive(Drop)]
pub(crate) struct Block {
    from: usize,
    answers: List<Served>,
}

// Serves these jobs, one after the other.
fn serve_each<G: Gate>(
    alloc: Global,
    setting: &Setting<'_>,
    jobs: &[Job],
    gate: &G,
) -> Result<List<Served>, OutOfMemory>
    requires { EnterIn setting.now jobs.now }
    ensures { IfOk result (λ answers. answers ≡ map (answer_in setting.now) jobs.now) }
{
    let mut answers = List::from_vec(Vec::with_capacity(alloc, jobs.len())?);
    for job in jobs {
        gate.pass(job.index % setting.workers, job.index);
        let served = route(alloc, setting.number, setting.plan, setting.states, job)?;
        answers.push(served)?;
    }
    Ok(answers)
}

// Serves the next block, unless all are taken or memory is lacking.
fn next_block<G: Gate>(
    alloc: Global,
    setting: &Setting<'_>,
    jobs: &[Job],
    gate: &G,
    next: &AtomicUsize,
) -> Option<Block>
    requires { EnterIn setting.now jobs.now }
    ensures { IfSome result (HasAnswers (answer_in setting.now) jobs.now) }
{
    let from = next.fetch_add(BLOCK, Ordering::SeqCst);
    if jobs.len() <= from {
        return None;
    }
    let (_, left) = jobs.split_at(from);
    let (block, _) = left.split_at(BLOCK.min(left.len()));
    match serve_each(alloc, setting, block, gate) {
        Ok(answers) => Some(Block { from, answers }),
        Err(_) => None,
    }
}

// Serves block after block.
fn serve_lane<G: Gate>(
    alloc: Global,
    setting: &Setting<'_>,
    jobs: &[Job],
    gate: &G,
    next: &AtomicUsize,
) -> List<Block>
    requires { EnterIn setting.now jobs.now }
    ensures { All (HasAnswers (answer_in setting.now) jobs.now) result }
{
    let mut blocks = List::new(alloc);
    for _ in 0..jobs.len() {
        let Some(block) = next_block(alloc, setting, jobs, gate, next) else {
            break;
        };
        if blocks.push(block).is_err() {
            break;
        }
    }
    blocks
}

// Serves the jobs by this number of threads, one of which is the caller's.
fn serve_lanes<R: Threads + Sync, G: Gate + Sync>(
    host: &Host<'_, R, G>,
    threads: usize,
    setting: &Setting<'_>,
    jobs: &[Job],
) -> Result<Vec<List<Block>>, AllocError>
    requires { EnterIn setting.now jobs.now }
    ensures { IfOk result (λ lanes. All (λ lane. All (HasAnswers (answer_in setting.now) jobs.now) lane) lanes.items) }
{
    let next = AtomicUsize::new(0);
    let shared = &next;
    let gate = host.gate;
    let alloc = host.alloc;
    thread::map_indices(
        host.rt,
        alloc,
        threads,
        &|_lane: usize| -> List<Block>
            requires { EnterIn setting.now jobs.now }
            ensures { All (HasAnswers (answer_in setting.entry.now) jobs.entry.now) result }
        { serve_lane(alloc, setting, jobs, gate, shared) },
    )
}

// Adds the blocks of one more thread after the others.
fn put(blocks: &mut Vec<Block>, lane: List<Block>) -> Result<(), AllocError>
    ensures { OnOk result (blocks.new.items ≡ blocks.old.items ++ lane) }
{
    blocks.append(&mut lane.into_vec())
}

// Collects the blocks of all threads.
fn all_blocks(alloc: Global, lanes: Vec<List<Block>>) -> Result<Vec<Block>, AllocError>
    ensures { (answer : Job → Served) (jobs : List Job) → All (λ lane. All (HasAnswers answer jobs) lane) lanes.items
        → IfOk result (λ blocks. All (HasAnswers answer jobs) blocks.items) }
{
    let mut left = lanes;
    let mut blocks = Vec::new(alloc);
    while let Some(lane) = left.pop() {
        put(&mut blocks, lane)?;
    }
    Ok(blocks)
}

// The place of the block whose first job has this place.
fn place_of(blocks: &[Block], from: usize) -> Option<usize>
    ensures { result ≡ position (λ block. nat_eq block.from from) blocks.now }
{
    blocks.iter().position(|block| block.from == from)
}

// The answers of the blocks, as far as these follow one another. There is room for `room` answers from the start.
fn in_order(alloc: Global, room: usize, blocks: Vec<Block>) -> Result<Vec<Served>, AllocError>
    ensures { (answer : Job → Served) (jobs : List Job) → All (HasAnswers answer jobs) blocks.items
        → IfOk result (λ answers. answers.items ≡ map answer (take (length answers.items) jobs)) }
{
    let mut left = blocks;
    let mut answers = Vec::with_capacity(alloc, room)?;
    while let Some(place) = place_of(left.as_slice(), answers.len()) {
        let block = left.remove(place);
        answers.append(&mut block.answers.into_vec())?;
    }
    Ok(answers)
}

/// Answers each job under the plan of this setting, in the order of the jobs, by this number of threads. If a thread had no
/// memory for a block, this thread serves the jobs from there on again. The only error is lack of memory.
pub(crate) fn serve_blocks<R: Threads + Sync, G: Gate + Sync>(
    host: &Host<'_, R, G>,
    threads: usize,
    setting: &Setting<'_>,
    jobs: &[Job],
) -> Result<List<Served>, OutOfMemory>
    requires { EnterIn setting.now jobs.now }
    ensures { IfOk result (λ answers. answers ≡ map (answer_in setting.now) jobs.now) }
{
    let alloc = host.alloc;
    if threads < 2 {
        return serve_each(alloc, setting, jobs, host.gate);
    }
    let lanes = serve_lanes(host, threads, setting, jobs)?;
    let mut answers = in_order(alloc, jobs.len(), all_blocks(alloc, lanes)?)?;
    let (_, left) = jobs.split_at(answers.len());
    let rest = serve_each(alloc, setting, left, host.gate)?;
    answers.append(&mut rest.into_vec())?;
    Ok(List::from_vec(answers))
}
