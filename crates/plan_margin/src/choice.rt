//! The choice of a target for the titles of a class.
use plan_classes::Class;
use plan_rules::Row;

/// A decided class, the row that counts for its titles, and the place of the target that the search looks at.
#[derive(Clone, Copy)]
pub(crate) struct Choice<'a> {
    pub class: &'a Class,
    pub row: &'a Row,
    pub place: u8,
    /// How many more hops the routes of the titles may have.
    pub left: u8,
}
