//! The steps of the publisher: it opens, begins a batch, publishes a plan, ends.
ghost use Rattle.std.specs.Prelude.{◌≡◌, ◌+◌, ◌^◌, ◌<◌, [], ◌∷◌, ◌++◌, length, IfOk, IfSome, OnOk, OnErr};
ghost use Rattle.std.specs.Arc.{arc_value};
ghost use Rattle.live_plan.specs.Entries.{entry_plan};
ghost use Rattle.live_plan.specs.Plans.{HasPlan, HaveNodes, nodes_of};
ghost use Rattle.live_plan.specs.Published.{begun, advanced};
ghost use Rattle.live_plan.specs.Seats.{HasPassed, known_by};
ghost use Rattle.live_plan.specs.Tellers.{told_by, shown_by, plans_of, due_of};

use super::{PlanWriter, Teller};
use crate::live_place::PlanReader;
use crate::nodes::count_nodes;
use crate::place::Entry;
use crate::published::{Published, Shown};
use crate::rule::{Advances, Begins, Whole};
use left_right::writer::Writer;
use plan_check::Accepted;
use sccp_base::{List, OutOfMemory};
use std::alloc::{AllocError, Global};
use std::snapshot::Snapshot;
use std::sync::{Arc, Wait};
use std::thread;
use std::thread::Threads;

// The most readers at one time: each worker has at most one.
const READERS: usize = 16;

// Shows the last plan once more at the beginning of a batch. The teller is moved, since the writer is.
fn with_begun<R: Wait>(teller: Teller, given: (&R, Published)) -> (Teller, Result<(), AllocError>)
    requires batch { (shown_by teller).batch < (arc_value given.1.shown).batch }
    requires number { (arc_value given.1.shown).number ≡ (shown_by teller).number }
    requires plan { arc_value (arc_value given.1.shown).plan ≡ arc_value (shown_by teller).plan }
    requires nodes { HaveNodes teller.nodes (arc_value given.1.shown).coming.value }
    requires room { length (plans_of teller) + length (arc_value given.1.shown).coming.value < 2 ^ 32 }
    ensures ok { IfOk result.1 (λ _. told_by result.0 ≡ begun (told_by teller) (arc_value given.entry.1.shown)) }
    ensures err { OnErr result.1 (told_by result.0 ≡ told_by teller) }
    ensures nodes { result.0.nodes ≡ teller.nodes }
{
    let Teller {
        mut writer,
        alloc,
        nodes,
        processors,
    } = teller;
    match writer.append(given.1) {
        Ok(()) => {}
        Err(_) => {
            let teller = Teller {
                writer,
                alloc,
                nodes,
                processors,
            };
            return (teller, Err(AllocError));
        }
    }
    let (writer, published) = writer.publish_as::<Begins, R>(given.0);
    let teller = Teller {
        writer,
        alloc,
        nodes,
        processors,
    };
    (teller, published)
}

// Shows the next plan of the batch.
fn with_next<R: Wait>(teller: Teller, given: (&R, Published)) -> (Teller, Result<(), AllocError>)
    requires batch { (shown_by teller).batch ≡ (arc_value given.1.shown).batch }
    requires number { (arc_value given.1.shown).number ≡ (shown_by teller).number + 1 }
    requires plan { HasPlan (due_of teller) (arc_value given.1.shown).number (arc_value (arc_value given.1.shown).plan) }
    ensures ok { IfOk result.1 (λ _. told_by result.0 ≡ advanced (told_by teller) (arc_value given.entry.1.shown)) }
    ensures err { OnErr result.1 (told_by result.0 ≡ told_by teller) }
    ensures nodes { result.0.nodes ≡ teller.nodes }
{
    let Teller {
        mut writer,
        alloc,
        nodes,
        processors,
    } = teller;
    match writer.append(given.1) {
        Ok(()) => {}
        Err(_) => {
            let teller = Teller {
                writer,
                alloc,
                nodes,
                processors,
            };
            return (teller, Err(AllocError));
        }
    }
    let (writer, published) = writer.publish_as::<Advances, R>(given.0);
    let teller = Teller {
        writer,
        alloc,
        nodes,
        processors,
    };
    (teller, published)
}

/// A publisher with only this plan.
pub(crate) fn open<R: Wait>(rt: &R, alloc: Global, first: Accepted) -> Result<Teller, OutOfMemory>
    ensures plans { IfOk result (λ t. plans_of t ≡ first ∷ []) }
    ensures due { IfOk result (λ t. due_of t ≡ first ∷ []) }
    ensures nodes { IfOk result (λ t. t.nodes ≡ nodes_of first) }
{
    let nodes = count_nodes(&first);
    let mut coming = List::new(alloc);
    coming.push(first)?;
    let firsts = Snapshot::of(&coming);
    let Some(first) = coming.into_vec().pop() else {
        unreachable!()
    };
    let plan = Arc::new(alloc, first)?;
    let again = Arc::try_clone(&plan)?;
    let shown = Shown {
        batch: 1,
        number: 1,
        plan: again,
        coming: Snapshot::of(&List::new(alloc)),
    };
    let first = Arc::new(alloc, shown)?;
    let second = Arc::try_clone(&first)?;
    let shown = Shown {
        batch: 2,
        number: 1,
        plan,
        coming: firsts,
    };
    let begun = Arc::new(alloc, shown)?;
    let mut writer: PlanWriter = Writer::new(
        alloc,
        Published { shown: first },
        Published { shown: second },
        READERS,
    )?;
    match writer.append(Published { shown: begun }) {
        Ok(()) => {}
        Err(_) => {
            // There is no memory for the writer's list of what it is to show.
            writer.take(rt);
            return Err(OutOfMemory);
        }
    }
    let (writer, published) = writer.publish_as::<Begins, R>(rt);
    match published {
        Ok(()) => Ok(Teller {
            writer,
            alloc,
            nodes,
            processors: 0,
        }),
        Err(_) => {
            // What is to be shown cannot be shared once more, for the writer's other copy. No contract says how often a value
            // is shared, so proof cannot exclude this.
            writer.take(rt);
            Err(OutOfMemory)
        }
    }
}

impl Teller {
    /// The number of nodes of each plan.
    pub fn nodes(&self) -> u8
        ensures { result ≡ self.now.nodes }
    {
        self.nodes
    }

    /// The number of the last plan, which is also the number of published plans.
    pub fn number(&self) -> u32
        ensures { result ≡ length (plans_of self.now) }
    {
        self.writer.published().shown.number
    }

    /// The last plan.
    pub fn latest(&self) -> &Accepted
        ensures { HasPlan (plans_of self.now) (length (plans_of self.now)) result.now }
    {
        &self.writer.published().shown.plan
    }

    // The number of the present batch or, between batches, of the last one.
    pub(crate) fn batch(&self) -> u64
        ensures { result ≡ (told_by self.now).batch }
    {
        self.writer.published().shown.batch
    }

    // The number of threads that may run at once, at least two. The system is asked once: its answer takes the time of some
    // jobs.
    pub(crate) fn processors<R: Threads>(&mut self, rt: &R) -> usize
        ensures some { 0 < result }
        ensures told { told_by self.new ≡ told_by self.old }
        ensures nodes { self.new.nodes ≡ self.old.nodes }
    {
        if self.processors == 0 {
            self.processors = match thread::available_parallelism(rt) {
                Ok(count) => count.get().max(2),
                Err(_) => 2,
            };
        }
        self.processors
    }

    /// The last plan with its number, as an entry for a worker. The only error is lack of memory.
    pub fn last_entry(&self) -> Result<Entry, OutOfMemory>
        ensures number { IfOk result (λ e. e.number ≡ length (plans_of self.now)) }
        ensures plan { IfOk result (λ e. HasPlan (plans_of self.now) e.number (entry_plan e)) }
        ensures due { IfOk result (λ e. HasPlan (due_of self.now) e.number (entry_plan e)) }
        ensures nodes { IfOk result (λ e. nodes_of (entry_plan e) ≡ self.now.nodes) }
    {
        let shown = &*self.writer.published().shown;
        Entry::of(self.alloc, shown.number, &shown.plan)
    }

    // A new reader, which knows what the publisher knows, if there is a seat and memory for it.
    pub(crate) fn reader(&mut self) -> Option<PlanReader>
        ensures reader { IfSome result (λ r. known_by r.place ≡ told_by self.old) }
        ensures told { told_by self.new ≡ told_by self.old }
        ensures alike { IfSome result (λ r. HasPassed self.old.nodes (told_by self.old).batch (length (plans_of self.old))
            (known_by r.place)) }
        ensures nodes { self.new.nodes ≡ self.old.nodes }
    {
        let Ok(mut reader) = self.writer.factory().reader() else {
            return None;
        };
        let note = self.writer.tell::<Whole>();
        reader.learn::<Whole>(note);
        Some(reader)
    }

    // Begins a batch in which these plans may be published.
    pub(crate) fn begin<R: Wait>(
        &mut self,
        rt: &R,
        coming: &List<Accepted>,
    ) -> Result<(), OutOfMemory>
        requires nodes { HaveNodes self.old.nodes coming.now }
        requires room { length (plans_of self.old) + length coming.now < 2 ^ 32 }
        ensures due { OnOk result (due_of self.new ≡ plans_of self.old ++ coming.now) }
        ensures plans { plans_of self.new ≡ plans_of self.old }
        ensures nodes { self.new.nodes ≡ self.old.nodes }
    {
        let shown = &*self.writer.published().shown;
        // The numbers of batches end at 2^64 - 1: no batch begins after that one.
        let Some(batch) = shown.batch.checked_add(1) else {
            return Err(OutOfMemory);
        };
        let plan = Arc::try_clone(&shown.plan)?;
        let next = Shown {
            batch,
            number: shown.number,
            plan,
            coming: Snapshot::of(coming),
        };
        let shown = Arc::new(self.alloc, next)?;
        core::mem::replace_with(self, (rt, Published { shown }), with_begun::<R>)?;
        Ok(())
    }

    // Publishes the next plan of the batch.
    pub(crate) fn advance<R: Wait>(&mut self, rt: &R, next: Accepted) -> Result<(), OutOfMemory>
        requires { HasPlan (due_of self.old) (length (plans_of self.old) + 1) next }
        ensures ok { OnOk result (plans_of self.new ≡ plans_of self.old ++ next ∷ []) }
        ensures err { OnErr result (plans_of self.new ≡ plans_of self.old) }
        ensures due { due_of self.new ≡ due_of self.old }
        ensures nodes { self.new.nodes ≡ self.old.nodes }
    {
        let plan = Arc::new(self.alloc, next)?;
        let shown = &*self.writer.published().shown;
        let next = Shown {
            batch: shown.batch,
            number: shown.number + 1,
            plan,
            coming: Snapshot::of(&List::new(self.alloc)),
        };
        let shown = Arc::new(self.alloc, next)?;
        core::mem::replace_with(self, (rt, Published { shown }), with_next::<R>)?;
        Ok(())
    }

    /// Publishes a plan after the last one, and answers its number. It may wait for workers that are looking. The only error
    /// is lack of memory: then nothing was published, and the plan is given up.
    ///
    /// This is a batch of its own, for which no worker was briefed. From then on each entry of each worker is refused, until
    /// `run_batch` briefs the workers again. Until then a worker goes on with the plan that it keeps. This may also be so
    /// after lack of memory, since the batch may have begun.
    pub fn replace<R: Wait>(&mut self, rt: &R, next: Accepted) -> Result<u32, OutOfMemory>
        requires nodes { nodes_of next ≡ self.old.nodes }
        requires room { length (plans_of self.old) + 1 < 2 ^ 32 }
        ensures ok { IfOk result (λ n. (plans_of self.new ≡ plans_of self.old ++ next ∷ []) × (n ≡ length (plans_of self.new))) }
        ensures err { OnErr result (plans_of self.new ≡ plans_of self.old) }
        ensures nodes { self.new.nodes ≡ self.old.nodes }
    {
        let mut coming = List::new(self.alloc);
        coming.push(next)?;
        self.begin(rt, &coming)?;
        let Some(next) = coming.into_vec().pop() else {
            unreachable!()
        };
        self.advance(rt, next)?;
        Ok(self.number())
    }

    /// Ends the publishing. It may wait for workers that are looking.
    pub fn end<R: Wait>(self, rt: &R) {
        let Teller {
            writer,
            alloc: _,
            nodes: _,
            processors: _,
        } = self;
        writer.take(rt);
    }
}
