//! What orders a row.
ghost use Rattle.std.specs.Prelude.{◌≡◌};
ghost use Rattle.plan_rules.specs.Keys.{key_of};

use crate::row::Row;
use sccp_base::{Digits, Selector};

/// What orders a row. Keys are ordered by these fields as they are written, and no subsystem number is below any.
#[derive(Clone, Copy, PartialEq, Eq, PartialOrd, Ord)]
pub struct RowKey {
    pub selector: Selector,
    pub ssn: Option<u8>,
    pub prefix: Digits,
}

impl RowKey {
    /// The key of a row.
    pub fn of(row: &Row) -> RowKey
        ensures { result ≡ key_of row.now }
    {
        RowKey {
            selector: row.selector(),
            ssn: row.ssn(),
            prefix: *row.prefix(),
        }
    }
}
