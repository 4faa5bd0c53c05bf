//! What the titles of a walk use.
ghost use Rattle.std.specs.Prelude.{◌≡◌, ◌↔◌, IsTrue, IsSome, OnOk};
ghost use Rattle.plan_model.specs.Network.{Network};
ghost use Rattle.plan_unused.specs.Uses.{UsesRelay, UsesRow, UsesTarget, HasGap};
ghost use Rattle.plan_unused.specs.Walks.{has_relay, has_row, has_target, gap_in, IsSeen, IsMore};

use crate::survey::{RowPlace, TargetPlace};
use plan_model::{Plan, Spot};
use sccp_base::OutOfMemory;
use std::alloc::Global;
use std::collections::{BTreeMap, BTreeSet};

/// The relays, rows and targets that are used, and for each cover with a gap one title without a row.
#[derive(Drop)]
pub(crate) struct Seen {
    pub relays: BTreeSet<u8>,
    pub rows: BTreeSet<RowPlace>,
    pub targets: BTreeSet<TargetPlace>,
    pub gaps: BTreeMap<u32, Spot>,
}

impl Seen {
    /// Nothing is used. It takes no memory.
    pub(crate) fn new(alloc: Global) -> Seen
        ensures { (plan : Network) → IsSeen plan result }
    {
        Seen {
            relays: BTreeSet::new(alloc),
            rows: BTreeSet::new(alloc),
            targets: BTreeSet::new(alloc),
            gaps: BTreeMap::new(alloc),
        }
    }

    /// Notes a relay that some title uses.
    pub(crate) fn note_relay(&mut self, plan: &Plan, node: u8) -> Result<(), OutOfMemory>
        requires uses { UsesRelay plan.now node }
        requires seen { IsSeen plan.now self.old }
        ensures seen { OnOk result (IsSeen plan.now self.new) }
        ensures more { OnOk result (IsMore self.old self.new) }
        ensures noted { OnOk result (IsTrue (has_relay self.new node)) }
    {
        self.relays.insert(node)?;
        Ok(())
    }

    /// Notes a row that counts for some title.
    pub(crate) fn note_row(&mut self, plan: &Plan, place: RowPlace) -> Result<(), OutOfMemory>
        requires uses { UsesRow plan.now place.node place.row }
        requires seen { IsSeen plan.now self.old }
        ensures seen { OnOk result (IsSeen plan.now self.new) }
        ensures more { OnOk result (IsMore self.old self.new) }
        ensures noted { OnOk result (IsTrue (has_row self.new place)) }
    {
        self.rows.insert(place)?;
        Ok(())
    }

    /// Notes a target that some title takes.
    pub(crate) fn note_target(&mut self, plan: &Plan, place: TargetPlace) -> Result<(), OutOfMemory>
        requires uses { UsesTarget plan.now place.node place.row place.target }
        requires seen { IsSeen plan.now self.old }
        ensures seen { OnOk result (IsSeen plan.now self.new) }
        ensures more { OnOk result (IsMore self.old self.new) }
        ensures noted { OnOk result (IsTrue (has_target self.new place)) }
    {
        self.targets.insert(place)?;
        Ok(())
    }

    /// Notes a title of a cover without a row. The first one that is noted of a cover stays, so it is one with the fewest hops.
    pub(crate) fn note_gap(
        &mut self,
        plan: &Plan,
        cover: u32,
        spot: Spot,
    ) -> Result<(), OutOfMemory>
        requires gap { HasGap plan.now cover spot }
        requires seen { IsSeen plan.now self.old }
        ensures seen { OnOk result (IsSeen plan.now self.new) }
        ensures more { OnOk result (IsMore self.old self.new) }
        ensures noted { OnOk result (IsSome (gap_in self.new cover)) }
    {
        if self.gaps.contains_key(&cover) {
            return Ok(());
        }
        self.gaps.insert(cover, spot)?;
        Ok(())
    }

    /// Whether the relay is used.
    pub(crate) fn has_relay(&self, node: u8) -> bool
        ensures { result ≡ has_relay self.now node }
    {
        self.relays.contains(&node)
    }

    /// Whether the row counts for some title.
    pub(crate) fn has_row(&self, place: RowPlace) -> bool
        ensures { result ≡ has_row self.now place }
    {
        self.rows.contains(&place)
    }

    /// Whether the target is taken.
    pub(crate) fn has_target(&self, place: TargetPlace) -> bool
        ensures { result ≡ has_target self.now place }
    {
        self.targets.contains(&place)
    }

    /// A title of the cover without a row.
    pub(crate) fn gap(&self, cover: u32) -> Option<Spot>
        ensures { result ≡ gap_in self.now cover }
    {
        self.gaps.get(&cover).copied()
    }
}
