//! The faults of an entry in a table of ranks.
use std::alloc::AllocFailed;

/// Why a class got no rank.
#[derive(Clone, Copy, Debug, PartialEq, Eq)]
pub enum RanksFault {
    /// 262,144 other classes have one.
    Full,
    OutOfMemory,
}

impl<T: Drop> From<AllocFailed<T>> for RanksFault {
    ghost use Rattle.std.specs.Prelude.{◌≡◌};
    ghost use Rattle.plan_check.specs.declared.ranks_fault.RanksFault.TheVariants.{OutOfMemory};

    ghost from_gives = { λ _ fault. fault ≡ OutOfMemory };

    fn from(_error: AllocFailed<T>) -> RanksFault {
        RanksFault::OutOfMemory
    }
}
