//! Counts of faults, which stop at the end of their type.
ghost use Rattle.std.specs.Prelude.{◌≡◌, ◌≤◌};
ghost use Rattle.sccp_io.specs.Faults.{Rose, next_count};

/// The count after one more.
pub fn raised(count: u64) -> u64
    ensures next { result ≡ next_count count }
    ensures later { count ≤ result }
    ensures rose { Rose count result }
{
    count.saturating_add(1)
}
