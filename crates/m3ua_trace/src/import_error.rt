//! Why a file does not become a trace.
ghost use Rattle.std.specs.Prelude.{◌≡◌};
ghost use Rattle.m3ua_trace.specs.declared.import_error.ImportError.TheVariants.{Memory};

use sccp_base::OutOfMemory;
use std::alloc::AllocError;
use trace_text::LineFault;

/// Why a file does not become a trace.
#[derive(Clone, Copy, Debug)]
pub enum ImportError {
    Memory,
    /// The first line that is not a word of hexadecimal digits or breaks a limit of lines.
    Line(LineFault),
}

impl From<AllocError> for ImportError {
    ghost from_gives = { λ _ error. error ≡ Memory };

    fn from(_: AllocError) -> Self {
        ImportError::Memory
    }
}

impl From<OutOfMemory> for ImportError {
    ghost from_gives = { λ _ error. error ≡ Memory };

    fn from(_: OutOfMemory) -> Self {
        ImportError::Memory
    }
}
