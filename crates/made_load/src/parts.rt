//! The messages of a load in parts, which are sent in parallel.
ghost use Rattle.std.specs.Prelude.{◌≡◌, ℕ, ◌+◌, ◌<◌, ◌≤◌, ◌^◌, length, slice_index_or, vec_len, IfOk};
ghost use Rattle.made_load.specs.Loads.{beginning, counts_of_part, load_counts};
ghost use Rattle.made_load.specs.Relays.{load_plan};

use crate::counts::Counts;
use crate::load::part_counts;
use plan_check::Accepted;
use sccp_base::OutOfMemory;
use std::alloc::{AllocError, Global};
use std::thread;
use std::thread::Threads;

/// The number of messages that is worth a thread.
const WORTHWHILE: u32 = 256;

/// The place at which a part begins, of parts that are about equal.
fn beginning(size: u32, parts: u32, part: u32) -> u32
    requires some { 0 < parts }
    requires within { part ≤ parts }
    ensures { result ≡ beginning size parts part }
{
    (u64::from(size) * u64::from(part) / u64::from(parts)) as u32
}

/// The number of parts: one for each worker, but none that is not worth a thread.
fn parts_for(size: u32, workers: u32) -> u32
    requires { 0 < workers }
    ensures { 0 < result }
{
    (size / WORTHWHILE).clamp(1, workers)
}

/// The counts of one part. The relays' states at its beginning are those that the changes before it leave.
fn counts_of_part(
    alloc: Global,
    accepted: &Accepted,
    number: u32,
    size: u32,
    parts: u32,
    part: u32,
) -> Result<Counts, OutOfMemory>
    requires plan { accepted.now.plan ≡ load_plan number }
    requires within { part < parts }
    ensures { IfOk result (λ counts. counts ≡ counts_of_part number size parts part) }
{
    let from = beginning(size, parts, part);
    let upto = beginning(size, parts, part + 1);
    part_counts(alloc, accepted, number, from, upto)
}

/// The counts of each part, each in a thread of its own if one can be made.
fn count_parts<R: Threads + Sync>(
    rt: &R,
    alloc: Global,
    accepted: &Accepted,
    number: u32,
    size: u32,
    parts: u32,
) -> Result<Vec<Result<Counts, OutOfMemory>>, AllocError>
    requires { accepted.now.plan ≡ load_plan number }
    ensures long { IfOk result (λ all. vec_len all ≡ parts) }
    ensures each { IfOk result (λ all. (k : ℕ) (d : _) → k < parts
        → IfOk (slice_index_or all.items k d) (λ counts. counts ≡ counts_of_part number size parts k)) }
{
    thread::map_indices(
        rt,
        alloc,
        parts as usize,
        &|part: usize| -> Result<Counts, OutOfMemory>
            requires { (part < parts) × (accepted.now.plan ≡ load_plan number) }
            ensures { IfOk result (λ counts. counts ≡ counts_of_part number size parts part) }
        { counts_of_part(alloc, accepted, number, size, parts, part as u32) },
    )
}

/// The counts of `size` messages over the relays of an accepted plan, which is the number's. As many `workers` send them in
/// parallel if that is worth it; the counts do not depend on their number. The error is want of memory.
pub fn load_counts<R: Threads + Sync>(
    rt: &R,
    alloc: Global,
    accepted: &Accepted,
    number: u32,
    size: u32,
    workers: u32,
) -> Result<Counts, OutOfMemory>
    requires plan { accepted.now.plan ≡ load_plan number }
    requires workers { 0 < workers }
    ensures { IfOk result (λ counts. counts ≡ load_counts number size) }
{
    let parts = parts_for(size, workers);
    let all = count_parts(rt, alloc, accepted, number, size, parts)?;
    let mut counts = Counts::none();
    for part in 0..parts {
        match &all[part as usize] {
            Ok(more) => counts.join(more),
            Err(OutOfMemory) => return Err(OutOfMemory),
        }
    }
    Ok(counts)
}
