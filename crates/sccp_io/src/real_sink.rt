//! The standard output.
ghost use Rattle.std.specs.Prelude.{◌≡◌, ℕ, ◌<◌, None, OnOk, OnErr, IsErrOf};
ghost use Rattle.sccp_io.specs.Faults.{Rose};
ghost use Rattle.sccp_io.specs.Sinks.{TakesFront};

use crate::count::raised;
use crate::{IoFault, Sink};
use std::marker::Model;

/// The standard output by std. It does not show what it took. Each fault is counted, and a write of nothing is one.
#[derive(Drop)]
pub struct RealSink<R: Print> {
    rt: R,
    faults: u64,
}

/// Contracts see only its count of faults.
impl<R: Print> Model for RealSink<R> {
    ghost Value = { ℕ };

    ghost view = { λ m. m.faults };
}

impl<R: Print> RealSink<R> {
    /// The standard output of that runtime.
    pub fn new(rt: R) -> Self
        ensures { result ≡ 0 }
    {
        RealSink { rt, faults: 0 }
    }
}

impl<R: Print> Sink for RealSink<R> {
    ghost taken = { λ _. None };

    ghost faults = { λ count. count };

    fn put(&mut self, piece: &[u8]) -> Result<usize, IoFault>
        ensures takes { TakesFront piece.now result None None self.old self.new }
        ensures counted { OnErr result (Rose self.old self.new) }
        ensures uncounted { OnOk result (self.new ≡ self.old) }
        ensures memory { IsErrOf result IoFault.OutOfMemory → ⊥ }
    {
        match self.rt.write_some(piece) {
            Ok(count) if count > 0 => Ok(count),
            _ => {
                self.faults = raised(self.faults);
                Err(IoFault::Failed)
            }
        }
    }
}
