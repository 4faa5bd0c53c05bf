//! The reasons for which a walk stops early.
use sccp_base::OutOfMemory;

/// Why a walk stopped before its end.
#[derive(Clone, Copy)]
pub(crate) enum Halt {
    /// Covered titles get to too many classes.
    Wide,
    OutOfMemory,
}

impl From<OutOfMemory> for Halt {
    ghost use Rattle.std.specs.Prelude.{◌≡◌};
    ghost use Rattle.plan_unused.specs.declared.halt.Halt.TheVariants as halts;

    ghost from_gives = { λ _ halt. halt ≡ halts.OutOfMemory };

    fn from(_error: OutOfMemory) -> Halt {
        Halt::OutOfMemory
    }
}
