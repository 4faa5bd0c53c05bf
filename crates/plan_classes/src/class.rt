//! Classes: sets of titles at a relay, by their known digits and the number of their further ones.
ghost use Rattle.std.specs.Prelude.{◌≡◌, ◌+◌, ◌<◌, ◌≤◌, ◌↔◌, length, IsTrue, SomeIff};

use plan_model::Spot;
use sccp_base::{Digits, Selector};
use std::hash::{Hash, Hasher};
use std::marker::Model;

/// The titles at a relay, under a selector and a subsystem number. Their digits are the known ones and then `least` to `most`
/// further decimal ones. A class has the place of its cover in the plan, so classes of different covers differ. Classes are
/// ordered by these fields as they are written, digits as lists.
#[derive(Clone, Copy, Debug, PartialEq, Eq, PartialOrd, Ord)]
pub struct Class {
    cover: u32,
    node: u8,
    selector: Selector,
    ssn: u8,
    known: Digits,
    least: u8,
    most: u8,
}

impl Model for Class {
    ghost use Rattle.plan_classes.specs.Titles.{Titles, IsClass, titles};

    ghost Value = { Titles };

    ghost view = { λ c. titles c.cover c.node c.selector c.ssn c.known c.least c.most };

    ghost invariant = { λ c. IsClass (titles c.cover c.node c.selector c.ssn c.known c.least c.most) };

    ghost inverse = { λ t. record
        { cover = t.cover; node = t.node; selector = t.selector; ssn = t.ssn; known = t.known; least = t.least; most = t.most } };
}

impl Class {
    ghost use Rattle.plan_classes.specs.Titles.{titles, IsClass, IsMember, spot_of, closed, extended};

    /// The titles at the node of a spot, under its selector and subsystem number, whose digits are the spot's and then `least` to
    /// `most` further ones. It is `None` if `least` is above `most`, or if the number of the spot's digits and `most` add up to more
    /// than 32.
    pub fn new(cover: u32, first: &Spot, least: u8, most: u8) -> Option<Class>
        ensures { SomeIff result ((least ≤ most) × (length first.now.digits + most ≤ 32))
            (titles cover first.now.node first.now.selector first.now.ssn first.now.digits least most) }
    {
        if least <= most && first.digits.len() + usize::from(most) <= 32 {
            Some(Class {
                cover,
                node: first.node,
                selector: first.selector,
                ssn: first.ssn,
                known: first.digits,
                least,
                most,
            })
        } else {
            None
        }
    }

    /// The place of its cover in the plan.
    pub fn cover(&self) -> u32
        ensures value { result ≡ self.now.cover }
        ensures class { IsClass self.now }
    {
        self.cover
    }

    /// The place of its node in the plan.
    pub fn node(&self) -> u8
        ensures value { result ≡ self.now.node }
        ensures class { IsClass self.now }
    {
        self.node
    }

    /// Its titles' selector.
    pub fn selector(&self) -> Selector
        ensures value { result ≡ self.now.selector }
        ensures class { IsClass self.now }
    {
        self.selector
    }

    /// Its titles' subsystem number, 0 if the address has none.
    pub fn ssn(&self) -> u8
        ensures value { result ≡ self.now.ssn }
        ensures class { IsClass self.now }
    {
        self.ssn
    }

    /// The digits that its titles begin with.
    pub fn known(&self) -> &Digits
        ensures value { result.now ≡ self.now.known }
        ensures class { IsClass self.now }
    {
        &self.known
    }

    /// How many further digits there are at least.
    pub fn least(&self) -> u8
        ensures value { result ≡ self.now.least }
        ensures class { IsClass self.now }
    {
        self.least
    }

    /// How many further digits there are at most.
    pub fn most(&self) -> u8
        ensures value { result ≡ self.now.most }
        ensures class { IsClass self.now }
    {
        self.most
    }

    /// A title of the class as a spot, by its digits.
    pub fn spot_of(&self, digits: &Digits) -> Spot
        ensures { result ≡ spot_of self.now digits.now }
    {
        Spot {
            node: self.node,
            selector: self.selector,
            ssn: self.ssn,
            digits: *digits,
        }
    }

    /// Whether these are the digits of one of its titles.
    pub fn has(&self, digits: &Digits) -> bool
        ensures { IsTrue result ↔ IsMember self.now digits.now }
    {
        let known = self.known();
        if !digits.starts_with(known) {
            return false;
        }
        if digits.len() < known.len() + usize::from(self.least()) {
            return false;
        }
        if known.len() + usize::from(self.most()) < digits.len() {
            return false;
        }
        digits.is_decimal_from(known.len())
    }

    /// The one title with no further digit.
    pub(crate) fn closed(&self) -> Class
        requires { self.now.least ≡ 0 }
        ensures { result ≡ closed self.now }
    {
        Class {
            least: 0,
            most: 0,
            ..*self
        }
    }

    /// The titles with this next digit.
    pub(crate) fn extended(&self, digit: u8) -> Class
        requires digit { digit < 10 }
        requires more { 0 < self.now.most }
        ensures { result ≡ extended self.now digit }
    {
        Class {
            known: self.known.with(digit),
            least: self.least.saturating_sub(1),
            most: self.most - 1,
            ..*self
        }
    }
}

// The cover's number is hashed too: a table may have the classes of many covers that are equal otherwise.
impl Hash for Class {
    ghost use Rattle.std.specs.Prelude.{[], ◌∷◌, ◌++◌};
    ghost use Rattle.std.specs.Hash as fed;
    ghost use Rattle.std.proofs.Common.{rules};
    ghost use Rattle.std.specs.Cmp.Rules.{hashing};

    ghost hash_input = { λ c. fed.u32 c.cover ++ c.known
        ∷ (c.node ∷ c.selector.kind ∷ c.selector.translation ∷ c.selector.plan ∷ c.selector.nature ∷ c.ssn ∷ c.least ∷ c.most ∷ []) ∷ [] };

    ghost respects_eq = { Prim.search (hashing, rules) };

    fn hash<H: Hasher>(&self, state: &mut H) {
        state.write_u32(self.cover);
        state.write(self.known.as_slice());
        state.write(&[
            self.node,
            self.selector.kind(),
            self.selector.translation(),
            self.selector.plan(),
            self.selector.nature(),
            self.ssn,
            self.least,
            self.most,
        ]);
    }
}
