//! A sink in memory that fails only for want of memory.
ghost use Rattle.std.specs.Prelude.{◌≡◌, ℕ, ◌<◌, List, Some, []};

use crate::append::append;
use crate::{IoFault, Sink};
use std::alloc::Global;
use std::marker::Model;

/// A sink that keeps what it took in memory. It fails only for want of memory, so it counts no fault.
#[derive(Drop)]
pub struct SoundSink {
    taken: Vec<u8>,
}

impl Model for SoundSink {
    ghost Value = { List ℕ };

    ghost view = { λ m. m.taken.items };
}

impl SoundSink {
    /// A sink with nothing taken. It keeps the allocator.
    pub fn new(alloc: Global) -> Self
        ensures { result ≡ [] }
    {
        SoundSink {
            taken: Vec::new(alloc),
        }
    }

    /// What was taken so far.
    pub fn taken(&self) -> &[u8]
        ensures { result.now ≡ self.now }
    {
        &self.taken
    }
}

impl Sink for SoundSink {
    ghost taken = { λ taken. Some taken };

    ghost faults = { λ _. 0 };

    fn put(&mut self, piece: &[u8]) -> Result<usize, IoFault> {
        append(&mut self.taken, piece)
    }
}
