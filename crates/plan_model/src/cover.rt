//! Covers: the titles that a plan must bring to allowed places.
ghost use Rattle.std.specs.Prelude.{IsTrue, ◌↔◌, Contains};

use crate::spot::Spot;
use sccp_base::{Digits, List, PointCode, Selector};

/// Titles that a plan must bring to allowed places. They are at one node, under one selector and one subsystem number. Their
/// decimal digits begin with the prefix, and their number is from `least` to `most`.
#[derive(Drop)]
pub struct Cover {
    pub node: u8,
    pub selector: Selector,
    pub ssn: u8,
    pub prefix: Digits,
    pub least: u8,
    pub most: u8,
    /// Point codes, each with a subsystem number.
    pub allowed: List<(PointCode, u8)>,
}

impl Cover {
    ghost use Rattle.plan_model.specs.Covered.{Covers};
    ghost use Rattle.plan_model.specs.Faults.{HasNumbers};

    /// Whether the cover allows a place.
    pub fn allows(&self, pc: PointCode, ssn: u8) -> bool
        ensures { IsTrue result ↔ Contains self.now.allowed (pc, ssn) }
    {
        self.allowed.as_slice().contains(&(pc, ssn))
    }

    /// Whether the spot is one of the cover's.
    pub fn has(&self, spot: &Spot) -> bool
        ensures { IsTrue result ↔ Covers self.now spot.now }
    {
        let count = spot.digits.len();
        self.node == spot.node
            && self.selector == spot.selector
            && self.ssn == spot.ssn
            && spot.digits.is_decimal()
            && spot.digits.starts_with(&self.prefix)
            && usize::from(self.least) <= count
            && count <= usize::from(self.most)
    }

    /// States the ranges that the types of the cover's numbers keep, for a contract that names covers only. It does nothing
    /// when it runs.
    pub(crate) fn vouch(&self)
        ensures { HasNumbers self.now }
    {
        let _kind = self.selector.kind();
        let _number = self.ssn;
    }
}
