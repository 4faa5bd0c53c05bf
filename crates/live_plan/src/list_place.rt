//! A place over plans in memory, which needs no publisher.
ghost use Rattle.std.specs.Prelude.{◌≡◌, ◌^◌, ◌<◌, ◌≤◌, true, length, map, slice_get, Some, IfNone, IfSome, IsNone};
ghost use Rattle.std.specs.Arc.{arc_value};
ghost use Rattle.plan_check.specs.Verified.{Verified};
ghost use Rattle.live_plan.specs.Entries.{entry_plan};
ghost use Rattle.live_plan.specs.Listed.{is_listed, next_count, next_seen};
ghost use Rattle.live_plan.specs.Plans.{HasPlan, HaveNodes, Rose, nodes_of};

use crate::nodes::count_nodes;
use crate::place::{Entry, Place, raised};
use plan_check::Accepted;
use sccp_base::List;
use std::alloc::Global;
use std::sync::Arc;

// One more plan, if there is one.
fn one_more(seen: usize, all: usize) -> usize
    requires { seen ≤ all }
    ensures more { seen ≤ result }
    ensures most { result ≤ all }
    ensures next { result ≡ next_seen all seen }
{
    if seen < all { seen + 1 } else { seen }
}

// An entry at the plan of this number, counted from 1. `None` if the plan cannot be shared once more.
fn entry_at(alloc: Global, plans: &[Arc<Accepted>], number: usize) -> Option<Entry>
    requires { (0 < number) × (number ≤ length plans.now) × (length plans.now < 2 ^ 32) }
    ensures number { IfSome result (λ e. e.number ≡ number) }
    ensures plan { IfSome result (λ e. HasPlan (map arc_value plans.now) number (entry_plan e)) }
{
    Entry::of(alloc, number as u32, &plans[number - 1]).ok()
}

/// A place over a list in memory. Each entry sees one plan more, up to the whole list.
#[derive(Drop)]
pub struct ListPlace {
    alloc: Global,
    plans: List<Arc<Accepted>>,
    refusing: List<u64>,
    nodes: u8,
    seen: usize,
    calls: u64,
    entries: u64,
    refusals: u64,
    ghost within: { (0 < seen) × (seen ≤ length plans) × (length plans < 2 ^ 32) },
    ghost alike: { HaveNodes nodes (map arc_value plans) },
}

impl ListPlace {
    /// The place that has seen the first plan. It refuses the calls of `enter` whose numbers, counted from 0, are in
    /// `refusing`.
    pub fn new(alloc: Global, plans: List<Arc<Accepted>>, refusing: List<u64>) -> ListPlace
        requires within { (0 < length plans) × (length plans < 2 ^ 32) }
        requires alike { (first : Verified) → slice_get (map arc_value plans) 0 ≡ Some first
            → HaveNodes (nodes_of first) (map arc_value plans) }
        ensures plans { result.plans ≡ plans }
        ensures refusing { result.refusing ≡ refusing }
        ensures seen { result.seen ≡ 1 }
        ensures counts { (result.calls ≡ 0) × (result.entries ≡ 0) × (result.refusals ≡ 0) }
    {
        let nodes = count_nodes(&plans.as_slice()[0]);
        ListPlace {
            alloc,
            plans,
            refusing,
            nodes,
            seen: 1,
            calls: 0,
            entries: 0,
            refusals: 0,
        }
    }
}

impl Place for ListPlace {
    ghost plans = { λ p. Some (map arc_value p.plans) };

    ghost seen = { λ p. p.seen };

    ghost nodes = { λ p. p.nodes };

    ghost entries = { λ p. p.entries };

    ghost refusals = { λ p. p.refusals };

    /// Refuses a listed call. Any other call sees one plan more, until the whole list is seen. It is refused if the plan
    /// cannot be shared once more.
    fn enter(&mut self) -> Option<Entry>
        ensures plans { self.new.plans ≡ self.old.plans }
        ensures nodes { self.new.nodes ≡ self.old.nodes }
        ensures seen { self.old.seen ≤ self.new.seen }
        ensures counts { (self.old.entries ≤ self.new.entries) × (self.old.refusals ≤ self.new.refusals) }
        ensures some { IfSome result (λ e. Rose self.old.entries self.new.entries
            × HasPlan (map arc_value self.new.plans) e.number (entry_plan e) × (e.number ≡ self.new.seen)
            × (nodes_of (entry_plan e) ≡ self.new.nodes)) }
        ensures none { IfNone result (Rose self.old.refusals self.new.refusals × (self.new.seen ≡ self.old.seen)) }
        // Which calls are refused, and how many plans the others see.
        ensures refusing { self.new.refusing ≡ self.old.refusing }
        ensures calls { self.new.calls ≡ next_count self.old.calls }
        ensures listed { is_listed self.old.refusing self.old.calls ≡ true → IsNone result }
        ensures next { IfSome result (λ _. self.new.seen ≡ next_seen (length self.old.plans) self.old.seen) }
    {
        let call = self.calls;
        self.calls = self.calls.saturating_add(1);
        if self.refusing.as_slice().contains(&call) {
            self.refusals = raised(self.refusals);
            return None;
        }
        let plans = self.plans.as_slice();
        let seen = one_more(self.seen, plans.len());
        match entry_at(self.alloc, plans, seen) {
            Some(entry) => {
                self.seen = seen;
                self.entries = raised(self.entries);
                Some(entry)
            }
            None => {
                self.refusals = raised(self.refusals);
                None
            }
        }
    }
}
