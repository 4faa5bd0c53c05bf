//! What a survey of a plan lists.
use plan_covers::Needless;
use plan_model::Spot;
use sccp_base::List;

/// The place of a row: that of its relay in the plan, and its own in the relay's table.
#[derive(Clone, Copy, PartialEq, Eq, PartialOrd, Ord)]
pub struct RowPlace {
    pub node: u8,
    pub row: u32,
}

/// The place of a target: that of its row, and its own among the row's targets.
#[derive(Clone, Copy, PartialEq, Eq, PartialOrd, Ord)]
pub struct TargetPlace {
    pub node: u8,
    pub row: u32,
    pub target: u8,
}

/// A title of a cover at a relay that has no row for it.
#[derive(Clone, Copy)]
pub struct Gap {
    /// The place of the cover in the plan.
    pub cover: u32,
    /// The title, at the relay.
    pub spot: Spot,
}

/// What no covered title uses, in the order of the plan, and titles without a row. Nothing is listed below what is listed itself: no
/// row of an unused relay, and no target of an unused row.
#[derive(Drop)]
pub struct Unused {
    /// Relays that no covered title gets to.
    pub relays: List<u8>,
    /// Rows that count for no covered title.
    pub rows: List<RowPlace>,
    /// Targets that are the first open one for no covered title, whatever is prohibited.
    pub targets: List<TargetPlace>,
    /// Covers that add nothing to another one.
    pub covers: List<Needless>,
    /// For each cover of which some title gets to a relay without a row for it, one such title, after the fewest hops.
    pub gaps: List<Gap>,
}

/// A survey of a plan.
#[derive(Drop)]
pub enum Survey {
    Unused(Unused),
    /// Covered titles get to at least as many classes as the limit of the plan, so nothing is said.
    TooWide,
}
