//! A class of the search that has a row.
use plan_classes::Class;
use plan_rules::Row;

/// A decided class, and the row that counts for its titles.
#[derive(Clone, Copy)]
pub(crate) struct Stop<'a> {
    pub class: &'a Class,
    pub row: &'a Row,
    /// The number of rewritings before the class.
    pub depth: u8,
}
