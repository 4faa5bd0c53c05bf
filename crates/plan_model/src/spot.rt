//! Spots: the titles that a node can be given.
use sccp_base::{Digits, Selector};

/// A title at a node: the node's place in the plan, and the title's selector, subsystem number and digits. The subsystem
/// number is 0 if the address has none.
#[derive(Clone, Copy, PartialEq, Eq)]
pub struct Spot {
    pub node: u8,
    pub selector: Selector,
    pub ssn: u8,
    pub digits: Digits,
}
