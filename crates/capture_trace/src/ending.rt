//! How a capture ends.
ghost use Rattle.std.specs.Prelude.{◌≡◌};
ghost use Rattle.capture_trace.specs.Traced.{ending_of};

use capture_file::FileFault;

/// How a capture ends.
#[derive(Clone, Copy, Debug)]
pub enum Ending {
    /// The file is whole.
    Whole,
    /// The file ends in the middle of what began last. All before it was read.
    Cut,
    /// Something in the file cannot be read, and nothing after it was.
    Damaged,
}

/// How a capture ends, by what ended the reading of its file.
pub fn ending_of(fault: Option<FileFault>) -> Ending
    ensures { result ≡ ending_of fault }
{
    match fault {
        None => Ending::Whole,
        Some(FileFault::Cut(_)) => Ending::Cut,
        Some(FileFault::Damaged(_, _)) => Ending::Damaged,
    }
}
