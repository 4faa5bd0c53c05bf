//! The line that says what is wrong with a line of a file.
ghost use Rattle.std.specs.Prelude.{◌≡◌, IfOk};
ghost use Rattle.sccp_work.specs.LineFault.{kind_text, bad_line};

use std::alloc::{AllocError, Global};
use trace_text::{LineFault, LineKind};

/// The line that says which line has a fault.
pub fn bad_line(alloc: Global, fault: LineFault) -> Result<Vec<u8>, AllocError>
    ensures { IfOk result (λ text. text.items ≡ bad_line fault) }
{
    let number = fault.number;
    let kind = kind_text(fault.kind);
    let text = format!(in alloc; "bad trace line {number}{kind}\n")?;
    Ok(text.into_bytes())
}

fn kind_text(kind: LineKind) -> &'static str
    ensures { result.now ≡ kind_text kind }
{
    match kind {
        LineKind::TooMany => " too many",
        LineKind::TooLong => " too long",
        LineKind::NotALine => " not a line",
    }
}
