//! The faults of a plan.
use crate::place::Place;
use plan_rules::RuleFault;

/// A limit that was passed: more nodes, rows in all, or covers than the limits allow, 64, 4,096 and 256 by the standard ones.
#[derive(Clone, Copy)]
pub enum Counted {
    Nodes,
    Rows,
    Covers,
}

/// Why a text, or nodes and covers, make no plan.
#[derive(Clone, Copy)]
pub enum PlanFault {
    /// The text is not TOML.
    NotToml,
    /// A key is missing, is not known, or has a value of another type.
    WrongShape(Place),
    /// A value cannot be read, or is out of its range.
    BadValue(Place),
    /// An earlier node has the name, or the point.
    Repeated(Place),
    /// No node has what a relay or a cover names.
    UnknownNode(Place),
    /// A relay to the row's own node.
    RelayToSelf(Place),
    /// The rows of this node make no table.
    Rule(u8, RuleFault),
    /// There is no cover.
    NoCover,
    Limit(Counted),
    /// A cover's selector is of kind 2, or its prefix is not decimal or has more than 15 digits. Or its least is above its
    /// most, or its prefix is longer than its most.
    BadCover(Place),
    OutOfMemory,
}
