//! The faults of a table of ranks.
use plan_classes::Class;
use sccp_base::OutOfMemory;

/// The first test that a table of ranks fails. The starts of the covers are tested first, then the classes of the table in
/// ascending order, and the longest route last. A class is tested for a bad end, a missing rank, and a rank that is not
/// lower.
#[derive(Clone, Copy, Debug, PartialEq, Eq)]
pub enum CheckFault {
    /// The start of this cover has no rank.
    NoStart(u32),
    /// A class that follows this one has no rank: a part of it if it is undecided, otherwise a next class under a reached
    /// target.
    NoRank(Class),
    /// The rank of this class is not from 1 to 14. Or the class is undecided, and a part has a higher rank. Or it is decided,
    /// and a next class under a reached target has no lower rank.
    NotLower(Class),
    /// The cover or node of this class is not the plan's, or the class is decided and has no row. Or a reached target leads to
    /// a place that the cover does not allow, or to the node itself, which does not have the subsystem. Or it makes more than
    /// 32 digits.
    BadEnd(Class),
    /// The longest route is not covered, or its numbers of hops and of markings are not the greatest rank of a start.
    NotTight,
    OutOfMemory,
}

impl From<OutOfMemory> for CheckFault {
    ghost use Rattle.std.specs.Prelude.{◌≡◌};
    ghost use Rattle.plan_check.specs.declared.check_fault.CheckFault.TheVariants as faults;

    ghost from_gives = { λ _ fault. fault ≡ faults.OutOfMemory };

    fn from(_error: OutOfMemory) -> CheckFault {
        CheckFault::OutOfMemory
    }
}
