//! A stop of the walk that has a row.
use crate::survey::RowPlace;
use plan_classes::Class;
use plan_rules::Row;

/// A decided class at a hop, and the row that counts for its titles, with its place.
#[derive(Clone, Copy)]
pub(crate) struct Stop<'a> {
    pub class: &'a Class,
    pub row: &'a Row,
    pub place: RowPlace,
    /// The hop, counted from 0.
    pub depth: u8,
}
