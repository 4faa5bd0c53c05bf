//! Tables of ranks.
ghost use Rattle.std.specs.Prelude.{◌≡◌, ◌↔◌, [], if◌then◌else◌, length, OnOk, OnErr, Option, Some, IsSome, Err, IsTrue};
ghost use Rattle.std.specs.Ordering.{is_eq};
ghost use Rattle.plan_classes.specs.Titles.{Titles};
ghost use Rattle.plan_check.specs.Ranking.{rank_in, class_cmp, IsRanks, IsFullFor};

use crate::ranks_fault::RanksFault;
use plan_classes::Class;
use plan_model::MOST_CLASSES;
use std::alloc::Global;
use std::collections::BTreeMap;
use std::marker::Model;

/// Ranks of classes, which contracts see as the list of the classes in their order, each with its rank.
#[derive(Drop)]
pub struct Ranks {
    ranks: BTreeMap<Class, u8>,
}

impl Model for Ranks {
    ghost use Rattle.std.specs.Prelude.{List, ℕ};
    ghost use Rattle.plan_classes.specs.Titles.{Titles};
    ghost use Rattle.plan_check.specs.Ranking.{IsRanks};

    ghost Value = { List (Titles × ℕ) };

    ghost view = { λ r. r.ranks.entries };

    ghost invariant = { λ r. IsRanks r.ranks.entries };
}

impl Ranks {
    /// No class has a rank. It takes no memory.
    pub fn new(alloc: Global) -> Self
        ensures { result ≡ [] }
    {
        Ranks {
            ranks: BTreeMap::new(alloc),
        }
    }

    /// How many classes have a rank.
    pub fn len(&self) -> usize
        ensures count { result ≡ length self.now }
        ensures sound { IsRanks self.now }
    {
        self.ranks.len()
    }

    /// The rank of a class.
    pub fn get(&self, class: &Class) -> Option<u8>
        ensures { result ≡ rank_in self.now class.now }
    {
        self.ranks.get(class).copied()
    }

    /// Whether a class has a rank.
    pub(crate) fn has(&self, class: &Class) -> bool
        ensures { IsTrue result ↔ IsSome (rank_in self.now class.now) }
    {
        self.get(class).is_some()
    }

    /// Gives a class a rank, in place of the one that it has. The fault is `Full` if 262,144 other classes have one. After a
    /// fault the table is as it was.
    pub fn put(&mut self, class: Class, rank: u8) -> Result<(), RanksFault>
        ensures ok { OnOk result ((c : Titles) → rank_in self.new c
            ≡ (if is_eq (class_cmp class c) then Some rank else rank_in self.old c)) }
        ensures full { (result ≡ Err RanksFault.Full) ↔ IsFullFor self.old class }
        ensures err { OnErr result (self.new ≡ self.old) }
        ensures sound { IsRanks self.old }
    {
        if self.is_full_for(&class) {
            return Err(RanksFault::Full);
        }
        self.ranks.insert(class, rank)?;
        Ok(())
    }

    /// Whether 262,144 other classes have a rank.
    pub fn is_full_for(&self, class: &Class) -> bool
        ensures full { IsTrue result ↔ IsFullFor self.now class.now }
        ensures sound { IsRanks self.now }
    {
        MOST_CLASSES <= self.len() && self.get(class).is_none()
    }

    /// The classes in their order, with their ranks.
    pub(crate) fn entries(&self) -> &BTreeMap<Class, u8>
        ensures entries { result.now.entries ≡ self.now }
        ensures sound { IsRanks self.now }
    {
        &self.ranks
    }
}
