//! The user messages of a capture.
ghost use Rattle.std.specs.Prelude.{◌≡◌, ◌≤◌, List, [], ◌∷◌, ◌++◌, length, IfOk, OnErr};
ghost use Rattle.packet_layers.specs.Values.{data_as};
ghost use Rattle.user_messages.specs.Captures.{kept_after, last_given};
ghost use Rattle.user_messages.specs.Gathering.{Received, nothing, received, took};

use crate::fragment::Fragment;
use crate::given::Given;
use crate::place::Place;
use crate::seen::Seen;
use crate::taking::take;
use packet_layers::Data;
use sccp_base::{List as Fragments, OutOfMemory};
use std::alloc::Global;
use std::marker::Model;
use std::mem::replace;

/// What is kept of the DATA chunks of a capture: the keys of those that a later one may repeat, 65,536 at most, and those that
/// wait for others of their user message, 256 at most.
#[derive(Drop)]
pub struct Gatherer {
    alloc: Global,
    seen: Seen,
    waiting: Vec<Fragment>,
}

impl Model for Gatherer {
    ghost use Rattle.std.specs.Prelude.{◌≤◌, length};
    ghost use Rattle.user_messages.specs.Gathering.{Gathered};

    ghost Value = { Gathered };

    ghost view = { λ g. record { seen = g.seen; waiting = g.waiting.items } };

    ghost invariant = { λ g. length g.waiting.items ≤ 256 };
}

impl Gatherer {
    /// Nothing is kept.
    pub fn new(alloc: Global) -> Result<Gatherer, OutOfMemory>
        ensures { IfOk result (λ gatherer. gatherer ≡ nothing) }
    {
        Ok(Gatherer {
            alloc,
            seen: Seen::new(alloc)?,
            waiting: Vec::new(alloc),
        })
    }

    /// Takes the next chunk of the capture, with its place. After a fault everything is as it was.
    pub fn take(&mut self, place: Place, chunk: &Data<'_>) -> Result<Given, OutOfMemory>
        ensures exact { IfOk result (λ given. (self.new, given) ≡ took self.old (received place (data_as chunk.now))) }
        // In terms of all chunks that were taken. The laws of this crate are about these definitions.
        ensures capture { (cs : List Received) → self.old ≡ kept_after nothing cs → IfOk result (λ given.
            (self.new ≡ kept_after nothing (cs ++ received place (data_as chunk.now) ∷ []))
            × (given ≡ last_given cs (received place (data_as chunk.now)))) }
        ensures few { length self.new.seen ≤ 65536 }
        ensures waiting { length self.new.waiting ≤ 256 }
        ensures err { OnErr result (self.new ≡ self.old) }
    {
        let given = take(self.alloc, &mut self.seen, &mut self.waiting, place, chunk);
        self.seen.vouch_few();
        given
    }

    /// The chunks that wait at the end of the capture, in the order in which they arrived. After that none waits.
    pub fn finish(&mut self) -> Fragments<Fragment>
        ensures gives { result ≡ self.old.waiting }
        ensures rest { self.new ≡ record { seen = self.old.seen; waiting = [] } }
    {
        Fragments::from_vec(replace(&mut self.waiting, Vec::new(self.alloc)))
    }
}
