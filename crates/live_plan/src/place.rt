//! The place from which a worker looks at the published plans, and what it takes from there.
ghost use Rattle.std.specs.Prelude.{◌≡◌, ℕ, ◌<◌, ◌≤◌, List, Option, Some, None, IfOk, IfSome, IfNone, IsSomeAnd};
ghost use Rattle.std.specs.Arc.{arc_value};
ghost use Rattle.live_plan.specs.Entries.{entry_plan};
ghost use Rattle.plan_check.specs.Verified.{Verified};
ghost use Rattle.live_plan.specs.Plans.{HasPlan, Rose, nodes_of};

use plan_check::Accepted;
use sccp_base::OutOfMemory;
use std::alloc::Global;
use std::sync::Arc;

/// A plan with its number among those that are published, from 1.
///
/// All workers share the plan, and the users of a shared value are counted in one memory place. Threads that count there
/// often wait for each other. So each worker shares a share of its own: it counts for itself there, once for each message.
#[derive(Drop)]
pub struct Entry {
    pub number: u32,
    pub plan: Arc<Arc<Accepted>>,
}

impl Entry {
    /// A share of this plan, with its number. Nobody else counts there yet. The only error is lack of memory.
    pub fn of(alloc: Global, number: u32, plan: &Arc<Accepted>) -> Result<Entry, OutOfMemory>
        ensures number { IfOk result (λ e. e.number ≡ number) }
        ensures plan { IfOk result (λ e. entry_plan e ≡ arc_value plan.now) }
    {
        let plan = Arc::try_clone(plan)?;
        let plan = Arc::new(alloc, plan)?;
        Ok(Entry { number, plan })
    }

    /// The same plan with its number, counted at the same place as this one.
    pub(crate) fn again(&self) -> Result<Entry, OutOfMemory>
        ensures number { IfOk result (λ e. e.number ≡ self.now.number) }
        ensures plan { IfOk result (λ e. entry_plan e ≡ entry_plan self.now) }
    {
        let plan = Arc::try_clone(&self.plan)?;
        Ok(Entry {
            number: self.number,
            plan,
        })
    }
}

/// The next count, or the same one if it is the largest.
pub(crate) fn raised(count: u64) -> u64
    ensures rose { Rose count result }
    ensures never_falls { count ≤ result }
{
    count.saturating_add(1)
}

/// A place from which published plans are looked at.
pub trait Place {
    /// The plans that are published one after the other, if the place says which.
    ghost plans: { Self → Option (List Verified) };

    /// How many of them, from the first on, the place has seen published.
    ghost seen: { Self → ℕ };

    /// The number of nodes that each of them has.
    ghost nodes: { Self → ℕ };

    /// The number of entries that were made. `refusals` is the number of those that were refused.
    ghost entries: { Self → ℕ };

    ghost refusals: { Self → ℕ };

    /// Enters the published plans, takes the last one with its number, and leaves. The result is `None` if the entry was
    /// refused: then no more plans were seen.
    fn enter(&mut self) -> Option<Entry>
        ensures plans { plans self.new ≡ plans self.old }
        ensures nodes { nodes self.new ≡ nodes self.old }
        ensures seen { seen self.old ≤ seen self.new }
        ensures counts { (entries self.old ≤ entries self.new) × (refusals self.old ≤ refusals self.new) }
        ensures some { IfSome result (λ e. Rose (entries self.old) (entries self.new)
            × IsSomeAnd (plans self.new) (λ l. HasPlan l e.number (entry_plan e)) × (e.number ≡ seen self.new)
            × (nodes_of (entry_plan e) ≡ nodes self.new)) }
        ensures none { IfNone result (Rose (refusals self.old) (refusals self.new) × (seen self.new ≡ seen self.old)) };
}
