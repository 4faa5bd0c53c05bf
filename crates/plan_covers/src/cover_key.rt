//! What orders a cover.
ghost use Rattle.std.specs.Prelude.{◌≡◌, take};
ghost use Rattle.std.specs.Ordering.{is_lt};
ghost use Rattle.plan_covers.specs.Keys.{key_of, front_key, key_cmp};

use plan_model::Cover;
use sccp_base::{Digits, Selector};

/// What orders a cover. Keys are ordered by these fields as they are written, digits as lists.
#[derive(Clone, Copy, PartialEq, Eq, PartialOrd, Ord)]
pub struct CoverKey {
    pub node: u8,
    pub selector: Selector,
    pub ssn: u8,
    pub prefix: Digits,
}

impl CoverKey {
    /// The key of a cover.
    pub fn of(cover: &Cover) -> CoverKey
        ensures { result ≡ key_of cover.now }
    {
        CoverKey {
            node: cover.node,
            selector: cover.selector,
            ssn: cover.ssn,
            prefix: cover.prefix,
        }
    }

    /// The key of a cover with only this number of the prefix's first digits.
    pub fn of_front(cover: &Cover, count: usize) -> CoverKey
        ensures { result ≡ front_key cover.now count }
    {
        CoverKey {
            node: cover.node,
            selector: cover.selector,
            ssn: cover.ssn,
            prefix: front(&cover.prefix, count),
        }
    }

    /// Whether the key is before the other one.
    pub fn is_below(&self, other: &CoverKey) -> bool
        ensures { result ≡ is_lt (key_cmp self.now other.now) }
    {
        self < other
    }
}

/// This number of the first digits, or all if there are no more.
fn front(digits: &Digits, count: usize) -> Digits
    ensures { result ≡ take count digits.now }
{
    if digits.len() <= count {
        return *digits;
    }
    match Digits::joined(&digits.as_slice()[..count], &[]) {
        Some(front) => front,
        None => unreachable!(),
    }
}
