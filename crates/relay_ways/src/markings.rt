//! How few markings, one after the other, meet conditions in their order.
ghost use Rattle.std.specs.Prelude.{◌≡◌, if◌then◌else◌, Some, None, IfOk, OnOk, OnErr};
ghost use Rattle.relay_ways.specs.Conditions.{both, is_possible};
ghost use Rattle.relay_ways.specs.Markings.{begins, joined};
ghost use Rattle.relay_ways.specs.Settled.{settled};

use crate::all_ways::is_possible;
use crate::condition::{Condition, both, copied};
use crate::settling::settled;
use sccp_base::OutOfMemory;
use std::alloc::Global;

/// Both conditions as one in its shortest form, if some marking meets it.
fn together(
    alloc: Global,
    first: &Condition,
    second: &Condition,
) -> Result<Option<Condition>, OutOfMemory>
    ensures { IfOk result (λ found. found
        ≡ (if is_possible (both first.now second.now) then Some (settled (both first.now second.now)) else None)) }
{
    let joined = both(alloc, first, second)?;
    if !is_possible(alloc, &joined)? {
        return Ok(None);
    }
    Ok(Some(settled(alloc, &joined)?))
}

/// The conditions that the last marking meets, with one more that it meets too.
fn with(
    alloc: Global,
    so_far: &Option<Condition>,
    condition: &Condition,
) -> Result<Option<Condition>, OutOfMemory>
    ensures { IfOk result (λ found. found ≡ (if begins so_far.now condition.now then None else Some (joined so_far.now condition.now))) }
{
    match so_far {
        Some(so_far) => together(alloc, so_far, condition),
        None => Ok(None),
    }
}

/// Takes one more condition to those that the last marking meets, which are one condition. The answer is whether another marking
/// begins with it, since none meets all. If memory runs out, nothing changes.
pub fn begins(
    alloc: Global,
    so_far: &mut Option<Condition>,
    condition: &Condition,
) -> Result<bool, OutOfMemory>
    ensures value { IfOk result (λ answer. answer ≡ begins so_far.old condition.now) }
    ensures ok { OnOk result (so_far.new ≡ Some (joined so_far.old condition.now)) }
    ensures err { OnErr result (so_far.new ≡ so_far.old) }
{
    match with(alloc, so_far, condition)? {
        Some(joined) => {
            *so_far = Some(joined);
            Ok(false)
        }
        None => {
            let first = copied(alloc, condition)?;
            *so_far = Some(first);
            Ok(true)
        }
    }
}

/// Whether another marking begins with one more condition, after those that the last marking meets, which are one condition; and the
/// conditions that the last marking meets then. The error is want of memory.
pub fn next_marking(
    alloc: Global,
    so_far: &Option<Condition>,
    condition: &Condition,
) -> Result<(bool, Condition), OutOfMemory>
    ensures { IfOk result (λ next. next ≡ (begins so_far.now condition.now, joined so_far.now condition.now)) }
{
    match with(alloc, so_far, condition)? {
        Some(joined) => Ok((false, joined)),
        None => Ok((true, copied(alloc, condition)?)),
    }
}
