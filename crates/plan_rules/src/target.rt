//! The target of a translation.
ghost use Rattle.std.specs.Prelude.{◌≡◌, IsTrue, ◌↔◌, ◌≤◌, length};

use sccp_base::{Digits, PointCode, Selector};

/// The point to which a translation leads (Q.714 section 2).
#[derive(Clone, Copy)]
pub enum Target {
    /// To another relay: the first `strip` digits are taken off, and `put` is put in front of the rest. Without a selector or
    /// a subsystem number here, the message keeps its own.
    Relay {
        pc: PointCode,
        strip: u8,
        put: Digits,
        selector: Option<Selector>,
        ssn: Option<u8>,
    },
    /// To a destination. Without a subsystem number here, the message keeps its own.
    Final {
        pc: PointCode,
        ssn: Option<u8>,
    },
}

impl Target {
    ghost use Rattle.plan_rules.specs.Target.{point_of, put_of, strips_more, target_makes_odd, IsTarget};

    /// The point to which it leads.
    pub fn point(&self) -> PointCode
        ensures { result ≡ point_of self.now }
    {
        match self {
            Target::Relay { pc, .. } | Target::Final { pc, .. } => *pc,
        }
    }

    /// Whether the digits that it puts are at most 15.
    pub fn is_short(&self) -> bool
        ensures { IsTrue result ↔ (length (put_of self.now) ≤ 15) }
    {
        match self {
            Target::Relay { put, .. } => put.len() <= 15,
            Target::Final { .. } => true,
        }
    }

    /// Whether it strips more than this number of digits.
    pub fn strips_more(&self, digits: usize) -> bool
        ensures { result ≡ strips_more digits self.now }
    {
        match self {
            Target::Relay { strip, .. } => digits < usize::from(*strip),
            Target::Final { .. } => false,
        }
    }

    /// Whether it could give a title of kind 2 an odd number of digits, in a row of this kind.
    pub fn makes_odd(&self, kind: u8) -> bool
        ensures value { result ≡ target_makes_odd kind self.now }
        ensures sound { length (put_of self.now) ≤ 15 → IsTarget self.now }
    {
        match self {
            Target::Relay {
                strip,
                put,
                selector,
                ..
            } => {
                let change = usize::from(*strip) + put.as_slice().len();
                match selector {
                    Some(selector) => selector.kind() == 2,
                    None => kind == 2 && change % 2 == 1,
                }
            }
            Target::Final { .. } => false,
        }
    }
}
