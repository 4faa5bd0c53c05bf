//! Selectors of a translation, and how one is read from a text.
ghost use Rattle.std.specs.Prelude.{◌≡◌};
ghost use Rattle.std.specs.Option.{SomeIff};
ghost use Rattle.sccp_base.specs.Selector.{IsSelector, numbers};
ghost use Rattle.sccp_base.specs.Text.{selector_of};

use crate::text::{byte, cut};
use std::marker::Model;

/// What selects the rows of a translation: the kind of a global title, 1 to 4, and the numbers that this kind has. A
/// number that the kind does not have is 0 (Q.713 section 3.4.2.3). Selectors are ordered by kind, translation type,
/// numbering plan and nature of address.
#[derive(Clone, Copy, Debug, PartialEq, Eq, PartialOrd, Ord)]
pub struct Selector {
    kind: u8,
    translation: u8,
    plan: u8,
    nature: u8,
}

impl Model for Selector {
    ghost use Rattle.sccp_base.specs.Selector.{Numbers, IsSelector};

    ghost Value = { Numbers };

    ghost view = { λ s. record { kind = s.kind; translation = s.translation; plan = s.plan; nature = s.nature } };

    ghost invariant = { λ s. IsSelector (record { kind = s.kind; translation = s.translation; plan = s.plan; nature = s.nature }) };

    ghost inverse = { λ n. record { kind = n.kind; translation = n.translation; plan = n.plan; nature = n.nature } };
}

impl Selector {
    /// The selector of four numbers. `None` if the kind is not 1 to 4, or a number that it does not use is not 0. The same if
    /// the numbering plan is above 15, or the nature of address is above 127.
    pub fn new(kind: u8, translation: u8, plan: u8, nature: u8) -> Option<Selector>
        ensures { SomeIff result (IsSelector (numbers kind translation plan nature)) (numbers kind translation plan nature) }
    {
        let used = match kind {
            1 => translation == 0 && plan == 0,
            2 => plan == 0 && nature == 0,
            3 => nature == 0,
            4 => true,
            _ => false,
        };
        if used && plan < 16 && nature < 128 {
            Some(Selector {
                kind,
                translation,
                plan,
                nature,
            })
        } else {
            None
        }
    }

    /// The kind of the title, from 1 to 4.
    pub fn kind(&self) -> u8
        ensures same { result ≡ self.now.kind }
        ensures right { IsSelector self.now }
    {
        self.kind
    }

    /// The translation type.
    pub fn translation(&self) -> u8
        ensures same { result ≡ self.now.translation }
        ensures right { IsSelector self.now }
    {
        self.translation
    }

    /// The numbering plan, up to 15.
    pub fn plan(&self) -> u8
        ensures same { result ≡ self.now.plan }
        ensures right { IsSelector self.now }
    {
        self.plan
    }

    /// The nature of address, up to 127.
    pub fn nature(&self) -> u8
        ensures same { result ≡ self.now.nature }
        ensures right { IsSelector self.now }
    {
        self.nature
    }

    /// Reads `1:N`, `2:T`, `3:T:P` or `4:T:P:N`: T is the translation type, P the numbering plan and N the nature of address.
    /// Each has one to three decimal digits and is in its range. `None` for another text.
    pub fn parse(text: &[u8]) -> Option<Selector>
        ensures { result ≡ selector_of text.now }
    {
        match cut(text, b':') {
            Some((b"1", nature)) => Selector::new(1, 0, 0, byte(nature)?),
            Some((b"2", translation)) => Selector::new(2, byte(translation)?, 0, 0),
            Some((b"3", rest)) => {
                let (translation, plan) = cut(rest, b':')?;
                Selector::new(3, byte(translation)?, byte(plan)?, 0)
            }
            Some((b"4", rest)) => {
                let (translation, rest) = cut(rest, b':')?;
                let (plan, nature) = cut(rest, b':')?;
                Selector::new(4, byte(translation)?, byte(plan)?, byte(nature)?)
            }
            _ => None,
        }
    }
}
