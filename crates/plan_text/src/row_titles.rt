//! The titles that a row is for.
use sccp_base::{Digits, Selector};

/// What a row says of the titles that it is for: their selector, their subsystem number if it names one, and how their digits
/// begin.
#[derive(Clone, Copy)]
pub(crate) struct RowTitles {
    pub(crate) selector: Selector,
    pub(crate) ssn: Option<u8>,
    pub(crate) prefix: Digits,
}
