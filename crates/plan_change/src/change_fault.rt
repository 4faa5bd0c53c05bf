//! The faults of a comparison of two plans.
use sccp_base::OutOfMemory;

/// Why two plans were not compared.
#[derive(Clone, Copy, Debug)]
pub enum ChangeFault {
    /// Names, point codes, subsystems or concerned points, in order, are not the same.
    OtherNodes,
    OutOfMemory,
}

impl From<OutOfMemory> for ChangeFault {
    ghost use Rattle.std.specs.Prelude.{◌≡◌};
    ghost use Rattle.plan_change.specs.declared.change_fault.ChangeFault.TheVariants as faults;

    ghost from_gives = { λ _ fault. fault ≡ faults.OutOfMemory };

    fn from(_error: OutOfMemory) -> ChangeFault {
        ChangeFault::OutOfMemory
    }
}
