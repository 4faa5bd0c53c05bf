//! What workers keep if the plans of a batch cannot all be published: the last plan from before the batch.
ghost use Rattle.std.specs.Prelude.{◌≡◌, ◌<◌, ◌≤◌, ℕ, All, length, slice_index_or, IfOk};
ghost use Rattle.std.specs.Arc.{arc_value};
ghost use Rattle.live_plan.specs.Batches.{AllPairs, Rests};
ghost use Rattle.live_plan.specs.Plans.{nodes_of};

use crate::live_place::LivePlace;
use crate::place::Entry;
use crate::teller::Teller;
use crate::worker::Worker;
use plan_check::Accepted;
use sccp_base::OutOfMemory;
use std::alloc::Global;
use std::sync::Arc;

/// Shares of the publisher's last plan, one for each of this number of workers. The only error is lack of memory.
pub(crate) fn spare_plans(
    alloc: Global,
    teller: &Teller,
    workers: usize,
) -> Result<Vec<Arc<Arc<Accepted>>>, OutOfMemory>
    ensures long { IfOk result (λ plans. length plans.items ≡ workers) }
    ensures nodes { IfOk result (λ plans. All (λ plan. nodes_of (arc_value (arc_value plan)) ≡ teller.now.nodes) plans.items) }
{
    let mut plans = Vec::new(alloc);
    for _turn in 0..workers {
        let Entry { number: _, plan } = teller.last_entry()?;
        plans.push(plan)?;
    }
    Ok(plans)
}

// The worker keeps this plan, and gives up its reader.
fn rest(worker: &mut Worker<LivePlace>, number: u32, plan: Arc<Arc<Accepted>>)
    requires { nodes_of (arc_value (arc_value plan)) ≡ worker.old.place.nodes }
    ensures { Rests number worker.old worker.new }
{
    worker.place.leave();
    worker.kept = Entry { number, plan };
}

/// Each worker keeps one of these shares of the plan of this number, and gives up its reader.
pub(crate) fn rest_all(
    workers: &mut [Worker<LivePlace>],
    number: u32,
    spares: Vec<Arc<Arc<Accepted>>>,
)
    requires enough { length workers.old ≤ length spares.items }
    requires nodes { (i : ℕ) (d : _) → i < length workers.old
        → All (λ plan. nodes_of (arc_value (arc_value plan)) ≡ (slice_index_or workers.old i d).place.nodes) spares.items }
    ensures { AllPairs (Rests number) workers.old workers.new }
{
    let mut left = spares;
    for k in 0..workers.len() {
        match left.pop() {
            Some(plan) => rest(&mut workers[k], number, plan),
            None => unreachable!(),
        }
    }
}
