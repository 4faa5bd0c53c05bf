//! The place of a worker over the published plans.
ghost use Rattle.std.specs.Prelude.{◌≡◌, ◌≤◌, length, Option, Some, None, IfSome, IsSomeAnd, option_map};
ghost use Rattle.std.specs.Option.{ForSome};
ghost use Rattle.std.specs.Arc.{arc_value};
ghost use Rattle.live_plan.specs.Entries.{entry_plan};
ghost use Rattle.live_plan.specs.Plans.{HasPlan, nodes_of};
ghost use Rattle.live_plan.specs.Seats.{HasPassed, known_by};
ghost use Rattle.live_plan.specs.Tellers.{told_by, plans_of, due_of};

use crate::known::Known;
use crate::place::{Entry, Place, raised};
use crate::published::{Published, Shown};
use crate::rule::{ByBatch, Sees};
use crate::teller::Teller;
use left_right::reader::Reader;
use std::alloc::Global;

pub(crate) type PlanReader = Reader<Published, Known, ByBatch>;

/// A place over a reader of the published plans. Every entry is refused if no reader could be had, or if another batch is
/// shown than the one for which the place was briefed. So each entry is refused from a `Teller::replace` until the next
/// `run_batch`.
///
/// It keeps its share of the plan of the last entry. So an entry that finds the same plan again counts at no other place.
#[derive(Drop)]
pub struct LivePlace {
    alloc: Global,
    pub(crate) reader: Option<PlanReader>,
    own: Option<Entry>,
    pub(crate) nodes: u8,
    batch: u64,
    pub(crate) passed: u32,
    entries: u64,
    refusals: u64,
    ghost has_passed: { ForSome reader (λ r. HasPassed nodes batch passed (known_by r.place)) },
    ghost owns: { ForSome reader (λ r. ForSome own (λ e. HasPlan (known_by r.place).plans e.number (entry_plan e))) },
}

// What is shown, as an entry: the own one, if it has that number.
fn entry_of(alloc: Global, shown: &Shown, own: Option<Entry>) -> Option<Entry>
    requires { ForSome own (λ e. e.number ≡ shown.now.number → entry_plan e ≡ arc_value shown.now.plan) }
    ensures number { IfSome result (λ e. e.number ≡ shown.now.number) }
    ensures plan { IfSome result (λ e. entry_plan e ≡ arc_value shown.now.plan) }
{
    if let Some(entry) = own {
        if entry.number == shown.number {
            return Some(entry);
        }
    }
    Entry::of(alloc, shown.number, &shown.plan).ok()
}

// Enters, takes the last plan if it is shown in this batch, and leaves.
fn visit(
    alloc: Global,
    reader: PlanReader,
    own: Option<Entry>,
    nodes: u8,
    batch: u64,
    passed: u32,
) -> (PlanReader, Option<Entry>)
    requires passed { HasPassed nodes batch passed (known_by reader.place) }
    requires owns { ForSome own (λ e. HasPlan (known_by reader.place).plans e.number (entry_plan e)) }
    ensures passed { HasPassed nodes batch passed (known_by result.0.place) }
    ensures plans { (known_by result.0.place).plans ≡ (known_by reader.place).plans }
    ensures entry { IfSome result.1 (λ e. HasPlan (known_by reader.place).plans e.number (entry_plan e) × (passed ≤ e.number)) }
    ensures further { IfSome result.1 (λ e. HasPassed nodes batch e.number (known_by result.0.place)) }
    ensures nodes { IfSome result.1 (λ e. nodes_of (entry_plan e) ≡ nodes) }
{
    match reader.enter_as::<Sees>() {
        Ok(reading) => {
            let shown = &*reading.get().shown;
            if shown.batch == batch {
                let entry = entry_of(alloc, shown, own);
                (reading.leave(), entry)
            } else {
                (reading.leave(), None)
            }
        }
        Err(reader) => (reader, None),
    }
}

// One more share of the own entry.
fn shared(own: &Option<Entry>) -> Option<Entry>
    ensures some { IfSome result (λ e. IsSomeAnd own.now (λ o. (e.number ≡ o.number) × (entry_plan e ≡ entry_plan o))) }
{
    match own {
        Some(entry) => entry.again().ok(),
        None => None,
    }
}

impl LivePlace {
    /// A place without a reader, for plans with this number of nodes.
    pub(crate) fn vacant(alloc: Global, nodes: u8) -> LivePlace
        ensures plans { result.reader ≡ None }
        ensures nodes { result.nodes ≡ nodes }
        ensures counts { (result.entries ≡ 0) × (result.refusals ≡ 0) }
    {
        LivePlace {
            alloc,
            reader: None,
            own: None,
            nodes,
            batch: 0,
            passed: 0,
            entries: 0,
            refusals: 0,
        }
    }

    /// Takes a new reader that knows what the publisher knows, if one can be had.
    pub(crate) fn brief(&mut self, teller: &mut Teller)
        requires { self.old.nodes ≡ teller.old.nodes }
        ensures plans { ForSome self.new.reader (λ r. (known_by r.place).plans ≡ due_of teller.old) }
        ensures passed { self.new.passed ≡ length (plans_of teller.old) }
        ensures nodes { self.new.nodes ≡ self.old.nodes }
        ensures counts { (self.new.entries ≡ self.old.entries) × (self.new.refusals ≡ self.old.refusals) }
        ensures told { told_by teller.new ≡ told_by teller.old }
        ensures same_nodes { teller.new.nodes ≡ teller.old.nodes }
    {
        // The old reader gives up its seat first.
        self.reader = None;
        self.own = None;
        self.passed = teller.number();
        self.batch = teller.batch();
        self.reader = teller.reader();
    }

    /// Gives up its reader: it reports no plans until it is briefed again.
    pub(crate) fn leave(&mut self)
        ensures plans { self.new.reader ≡ None }
        ensures nodes { self.new.nodes ≡ self.old.nodes }
        ensures counts { (self.new.entries ≡ self.old.entries) × (self.new.refusals ≡ self.old.refusals) }
    {
        self.reader = None;
        self.own = None;
    }
}

impl Place for LivePlace {
    ghost plans = { λ p. option_map (λ r. (known_by r.place).plans) p.reader };

    ghost seen = { λ p. p.passed };

    ghost nodes = { λ p. p.nodes };

    ghost entries = { λ p. p.entries };

    ghost refusals = { λ p. p.refusals };

    fn enter(&mut self) -> Option<Entry> {
        match self.reader.take() {
            None => {
                self.refusals = raised(self.refusals);
                None
            }
            Some(reader) => {
                let own = self.own.take();
                let (reader, own) = visit(
                    self.alloc,
                    reader,
                    own,
                    self.nodes,
                    self.batch,
                    self.passed,
                );
                self.reader = Some(reader);
                self.own = own;
                match shared(&self.own) {
                    Some(entry) => {
                        self.passed = entry.number;
                        self.entries = raised(self.entries);
                        Some(entry)
                    }
                    None => {
                        self.refusals = raised(self.refusals);
                        None
                    }
                }
            }
        }
    }
}
