//! Tables of ranks that find a class by its hash.
ghost use Rattle.std.specs.Prelude.{◌≡◌, ◌≢◌, [], if◌then◌else◌, length, IfOk, OnErr, Some, None, IsSome};
ghost use Rattle.std.specs.List.{AllPairs};
ghost use Rattle.std.specs.Ordering.{is_eq};
ghost use Rattle.plan_classes.specs.Titles.{Titles};
ghost use Rattle.plan_check.specs.Ranking.{rank_in, class_cmp, classes_in};

use plan_classes::Class;
use sccp_base::OutOfMemory;
use std::alloc::Global;
use std::collections::HashMap;
use std::marker::Model;

/// Ranks of classes, as many as memory allows. Contracts see the list of the classes with their ranks, which is in no order.
#[derive(Drop)]
pub struct RankTable {
    ranks: HashMap<Class, u8>,
}

impl Model for RankTable {
    ghost use Rattle.std.specs.Prelude.{List, ℕ};
    ghost use Rattle.plan_classes.specs.Titles.{Titles};

    ghost Value = { List (Titles × ℕ) };

    ghost view = { λ t. t.ranks.entries };
}

impl RankTable {
    /// No class has a rank. It takes no memory.
    pub fn new(alloc: Global) -> Self
        ensures { result ≡ [] }
    {
        RankTable {
            ranks: HashMap::new(alloc),
        }
    }

    /// How many classes have a rank.
    pub fn len(&self) -> usize
        ensures count { result ≡ length self.now }
        ensures distinct { AllPairs (λ c d. c ≢ d) (classes_in self.now) }
    {
        self.ranks.len()
    }

    /// The rank of a class.
    pub fn get(&self, class: &Class) -> Option<u8>
        ensures { result ≡ rank_in self.now class.now }
    {
        self.ranks.get(class).copied()
    }

    /// Gives a class a rank if it has none, and answers the rank that it has already. After want of memory the table is as it was.
    pub fn put_new(&mut self, class: &Class, rank: u8) -> Result<Option<u8>, OutOfMemory>
        ensures was { IfOk result (λ was. was ≡ rank_in self.old class.now) }
        ensures new { IfOk result (λ was. was ≡ None → (c : Titles) → rank_in self.new c
            ≡ (if is_eq (class_cmp class.now c) then Some rank else rank_in self.old c)) }
        ensures kept { IfOk result (λ was. IsSome was → self.new ≡ self.old) }
        ensures err { OnErr result (self.new ≡ self.old) }
    {
        match self.ranks.insert(*class, rank)? {
            None => Ok(None),
            Some(was) => {
                self.ranks.insert(*class, was)?;
                Ok(Some(was))
            }
        }
    }
}
