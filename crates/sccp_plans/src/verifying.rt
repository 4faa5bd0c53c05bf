//! The command that verifies a plan.
ghost use Rattle.sccp_work.specs.Ending.{Works};
ghost use Rattle.sccp_work.specs.Moment.{moment};
ghost use Rattle.sccp_plans.specs.Verify.{verify_work};

use sccp_io::{Files, Sink};
use sccp_work::{PlanPath, Status, Stop, tell_verdict, with_plan};
use std::alloc::Global;

/// Prints the verdict on the plan of a file, and the route that shows it.
pub fn verify<F: Files, K: Sink>(
    alloc: Global,
    file: &PlanPath<'_>,
    files: &mut F,
    out: &mut K,
) -> Result<Status, Stop>
    ensures { Works (verify_work file.now) result
        (moment F.contents F.sound F.faults K.taken K.faults files.old out.old)
        (moment F.contents F.sound F.faults K.taken K.faults files.new out.new) }
{
    let plan = with_plan(alloc, file, files, out)?;
    let verdict = plan_verify::verify(alloc, plan)?;
    let told = tell_verdict(alloc, &verdict, out);
    drop(verdict);
    told
}
