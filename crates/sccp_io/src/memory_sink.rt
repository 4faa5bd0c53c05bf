//! A sink in memory of which chosen calls fail.
ghost use Rattle.std.specs.Prelude.{◌≡◌, ◌<◌, Some, [], true, false, length, IsErrOf};
ghost use Rattle.sccp_io.specs.Calls.{is_listed, CountsCall, FailsCounted};
ghost use Rattle.sccp_io.specs.Sinks.{TakesFront};
ghost use Rattle.sccp_io.specs.Memory.{MemorySinkView};

use crate::append::append;
use crate::schedule::Schedule;
use crate::{IoFault, Sink};
use std::alloc::Global;
use std::marker::Model;

/// A sink that keeps what it took in memory. The calls with the listed numbers, from 0, fail and are counted as faults.
/// Any other call fails only for want of memory.
#[derive(Drop)]
pub struct MemorySink {
    taken: Vec<u8>,
    schedule: Schedule,
}

impl Model for MemorySink {
    ghost Value = { MemorySinkView };

    ghost view = { λ m. record {
      taken = m.taken.items;
      failing = m.schedule.failing.items;
      calls = m.schedule.calls;
      faults = m.schedule.faults;
    } };
}

impl MemorySink {
    /// A sink with nothing taken, no call made and no fault counted. `failing` lists the numbers of the calls that fail.
    /// The sink keeps the allocator.
    pub fn new(alloc: Global, failing: Vec<u64>) -> Self
        ensures { result ≡ record { taken = []; failing = failing.items; calls = 0; faults = 0 } }
    {
        MemorySink {
            taken: Vec::new(alloc),
            schedule: Schedule::new(failing),
        }
    }

    /// What was taken so far.
    pub fn taken(&self) -> &[u8]
        ensures { result.now ≡ self.now.taken }
    {
        &self.taken
    }
}

impl Sink for MemorySink {
    ghost taken = { λ m. Some m.taken };

    ghost faults = { λ m. m.faults };

    fn put(&mut self, piece: &[u8]) -> Result<usize, IoFault>
        requires { 0 < length piece.now }
        ensures takes { TakesFront piece.now result (Some self.old.taken) (Some self.new.taken) self.old.faults self.new.faults }
        // Which calls fail.
        ensures call { CountsCall self.old.failing self.new.failing self.old.calls self.new.calls }
        ensures listed { is_listed self.old.failing self.old.calls ≡ true
            → FailsCounted result self.old.faults self.new.faults }
        ensures unlisted { is_listed self.old.failing self.old.calls ≡ false
            → (self.new.faults ≡ self.old.faults) × (IsErrOf result IoFault.Failed → ⊥) }
    {
        self.schedule.next()?;
        append(&mut self.taken, piece)
    }
}
