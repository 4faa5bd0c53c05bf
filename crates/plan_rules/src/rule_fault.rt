//! Why rows are not a table.
use sccp_base::OutOfMemory;

/// Why rows are not a table. The numbers are places of rows, from 0.
#[derive(Clone, Copy)]
pub enum RuleFault {
    /// The second row has the selector, the subsystem number or none, and the prefix of the first one.
    Twice(usize, usize),
    /// A target strips more digits than the row's prefix has.
    StripTooLong(usize),
    /// A title of kind 2 could get an odd number of digits.
    KindTwo(usize),
    /// Memory ran out.
    OutOfMemory,
}

impl From<OutOfMemory> for RuleFault {
    ghost use Rattle.std.specs.Prelude.{◌≡◌};
    ghost use Rattle.plan_rules.specs.declared.rule_fault.RuleFault.TheVariants as faults;

    ghost from_gives = { λ _ fault. fault ≡ faults.OutOfMemory };

    fn from(_error: OutOfMemory) -> RuleFault {
        RuleFault::OutOfMemory
    }
}
