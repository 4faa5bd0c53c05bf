//! What is counted of a capture.
ghost use Rattle.std.specs.Prelude.{◌≡◌, ◌+◌, IfOk};
ghost use Rattle.capture_trace.specs.Items.{counted};

use crate::kind::Kind;
use sccp_base::OutOfMemory;

/// What is counted of a capture: its packets, the messages for relays of the plan, those that are left out, the chunks that
/// repeat another, what is of other protocols, and the faults.
#[derive(Clone, Copy, Debug)]
pub struct Counts {
    pub packets: u64,
    pub messages: u64,
    pub left: u64,
    pub repeated: u64,
    pub others: u64,
    pub faults: u64,
}

/// The number after this one. A number of more than 64 bits is answered by want of memory.
pub fn next(number: u64) -> Result<u64, OutOfMemory>
    ensures { IfOk result (λ next. next ≡ number + 1) }
{
    if number == u64::MAX {
        return Err(OutOfMemory);
    }
    Ok(number + 1)
}

/// The counts after one more thing of that kind.
pub fn counted(kind: Kind, counts: &Counts) -> Result<Counts, OutOfMemory>
    ensures { IfOk result (λ after. after ≡ counted kind counts.now) }
{
    match kind {
        Kind::Message => Ok(Counts {
            messages: next(counts.messages)?,
            ..*counts
        }),
        Kind::Left => Ok(Counts {
            left: next(counts.left)?,
            ..*counts
        }),
        Kind::Repeated => Ok(Counts {
            repeated: next(counts.repeated)?,
            ..*counts
        }),
        Kind::Other => Ok(Counts {
            others: next(counts.others)?,
            ..*counts
        }),
        Kind::Fault => Ok(Counts {
            faults: next(counts.faults)?,
            ..*counts
        }),
        Kind::Waiting => Ok(*counts),
    }
}
