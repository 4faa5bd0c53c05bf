//! The survey of a plan.
ghost use Rattle.std.specs.Prelude.{IfOk};
ghost use Rattle.plan_unused.specs.Surveys.{IsLawfulSurvey, IsUnused};
ghost use Rattle.plan_unused.specs.Walks.{IsSeen, IsWhole};

use crate::halt::Halt;
use crate::listing::{gaps, unused_relays, unused_rows, unused_targets};
use crate::seen::Seen;
use crate::survey::{Survey, Unused};
use crate::walking::walk;
use plan_covers::needless_covers;
use plan_model::Plan;
use sccp_base::OutOfMemory;
use std::alloc::Global;

/// What no covered title of the plan can use within fourteen hops, whatever the relays have prohibited, and which covers add nothing
/// to another one. Also, for each cover of which some title gets to a relay without a row for it, one such title, the first that was
/// met and so after the fewest hops. `TooWide` is answered only if covered titles get to at least as many classes as
/// the limit of the plan. The plan need not be safe.
pub fn find_unused(alloc: Global, plan: &Plan) -> Result<Survey, OutOfMemory>
    ensures { IfOk result (IsLawfulSurvey plan.now) }
{
    match walk(alloc, plan) {
        Ok(seen) => {
            let found = list(alloc, plan, &seen);
            drop(seen);
            Ok(Survey::Unused(found?))
        }
        Err(Halt::Wide) => Ok(Survey::TooWide),
        Err(Halt::OutOfMemory) => Err(OutOfMemory),
    }
}

/// What was not noted.
fn list(alloc: Global, plan: &Plan, seen: &Seen) -> Result<Unused, OutOfMemory>
    requires seen { IsSeen plan.now seen.now }
    requires whole { IsWhole plan.now seen.now }
    ensures { IfOk result (IsUnused plan.now) }
{
    Ok(Unused {
        relays: unused_relays(alloc, plan, seen)?,
        rows: unused_rows(alloc, plan, seen)?,
        targets: unused_targets(alloc, plan, seen)?,
        covers: needless_covers(alloc, plan)?,
        gaps: gaps(alloc, plan, seen)?,
    })
}
