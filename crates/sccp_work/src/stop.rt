//! What ends a command before its end.
ghost use Rattle.std.specs.Prelude.{◌≡◌};
ghost use Rattle.sccp_work.specs.Ending.{early};
ghost use Rattle.sccp_work.specs.declared.stop.Stop.TheVariants.{Memory};

use crate::status::Status;
use sccp_base::OutOfMemory;
use std::alloc::AllocError;

/// What ends the work of a command before its end.
#[derive(Clone, Copy)]
pub enum Stop {
    /// The command has its answer already, and its text is written.
    Answered(Status),
    /// The files failed.
    Read,
    /// The sink failed.
    Write,
    /// Memory was wanting.
    Memory,
}

impl From<AllocError> for Stop {
    ghost from_gives = { λ _ stop. stop ≡ Memory };

    fn from(_: AllocError) -> Self {
        Stop::Memory
    }
}

impl From<OutOfMemory> for Stop {
    ghost from_gives = { λ _ stop. stop ≡ Memory };

    fn from(_: OutOfMemory) -> Self {
        Stop::Memory
    }
}

/// What ends a command early that had a last text to write.
pub fn early(worked: Result<Status, Stop>) -> Stop
    ensures { result ≡ early worked }
{
    match worked {
        Ok(status) => Stop::Answered(status),
        Err(stop) => stop,
    }
}
