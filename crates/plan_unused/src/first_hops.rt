//! The classes that were met.
ghost use Rattle.std.specs.Prelude.{◌≡◌, ◌≢◌, ◌≤◌, ◌<◌, [], if◌then◌else◌, length, slice_get, OnOk, Some, Err};
ghost use Rattle.std.specs.List.{AllPairs};
ghost use Rattle.std.specs.Ordering.{is_eq};
ghost use Rattle.plan_classes.specs.Titles.{Titles};
ghost use Rattle.plan_check.specs.Ranking.{rank_in, class_cmp, classes_in};
ghost use Rattle.plan_unused.specs.declared.halt.Halt.TheVariants as halts;
ghost use Rattle.plan_unused.specs.Walks.{KeepsPlaces};

use crate::halt::Halt;
use indexmap::IndexMap;
use plan_classes::Class;
use std::alloc::Global;
use std::marker::Model;

/// The classes that were met, each with the first hop that it was met at, its rank. A class is found by its hash and by its place, in
/// the order in which they were met. So the stops of a hop take no memory of their own. Contracts see the list of the classes with
/// their ranks, in that order.
#[derive(Drop)]
pub(crate) struct FirstHops {
    hops: IndexMap<Class, u8>,
}

impl Model for FirstHops {
    ghost use Rattle.std.specs.Prelude.{List, ℕ};
    ghost use Rattle.plan_classes.specs.Titles.{Titles};

    ghost Value = { List (Titles × ℕ) };

    ghost view = { λ f. f.hops.entries };
}

impl FirstHops {
    /// No class was met. It takes no memory.
    pub(crate) fn new(alloc: Global) -> FirstHops
        ensures { result ≡ [] }
    {
        FirstHops {
            hops: IndexMap::new(alloc),
        }
    }

    /// How many classes were met.
    pub(crate) fn len(&self) -> usize
        ensures { result ≡ length self.now }
    {
        self.hops.len()
    }

    /// The rank of a class.
    pub(crate) fn get(&self, class: &Class) -> Option<u8>
        ensures { result ≡ rank_in self.now class.now }
    {
        self.hops.get(class).copied()
    }

    /// The class at a place, with its rank.
    pub(crate) fn at(&self, place: usize) -> (Class, u8)
        requires { place < length self.now }
        ensures class { slice_get (classes_in self.now) place ≡ Some result.0 }
        ensures rank { rank_in self.now result.0 ≡ Some result.1 }
    {
        match self.hops.get_index(place) {
            Some((class, rank)) => (*class, *rank),
            None => unreachable!(),
        }
    }

    /// Gives a class a rank. A new class has the last place. The fault is `Wide` if as many classes as the limit have a rank.
    pub(crate) fn put(&mut self, class: Class, rank: u8, limit: usize) -> Result<(), Halt>
        ensures ok { OnOk result ((c : Titles) → rank_in self.new c
            ≡ (if is_eq (class_cmp class c) then Some rank else rank_in self.old c)) }
        ensures places { OnOk result (KeepsPlaces self.old self.new) }
        ensures wide { result ≡ Err halts.Wide → (limit ≤ length self.old) × AllPairs (λ c d. c ≢ d) (classes_in self.old) }
    {
        if self.hops.len() >= limit {
            return Err(Halt::Wide);
        }
        match self.hops.insert(class, rank) {
            Ok(_) => Ok(()),
            Err(_) => Err(Halt::OutOfMemory),
        }
    }
}
