//! How titles begin.
use sccp_base::{Digits, Selector};

/// How titles of a selector begin: their known digits, and how many more they have at most.
#[derive(Clone, Copy)]
pub struct Beginning<'a> {
    pub selector: Selector,
    pub known: &'a Digits,
    pub most: u8,
}
