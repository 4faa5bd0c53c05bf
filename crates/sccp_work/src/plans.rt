//! A plan file that a command reads first of all.
ghost use Rattle.std.specs.Prelude.{◌≡◌, false, IfOk, OnOk};
ghost use Rattle.plan_model.specs.Network.{IsPlan};
ghost use Rattle.plan_text.specs.Faults.{is_memory};
ghost use Rattle.sccp_work.specs.Moment.{moment};
ghost use Rattle.sccp_work.specs.Plans.{bad_plan, GivesPlan};

use crate::limit::within_limit;
use crate::opened::Opened;
use crate::plan_path::PlanPath;
use crate::status::Status;
use crate::stop::{Stop, early};
use crate::writing::print_last;
use plan_model::{Limits, Plan, PlanFault};
use sccp_base::{Octets, OutOfMemory};
use sccp_io::{Files, Sink};
use sccp_report::plan_fault_text;
use std::alloc::Global;

/// Reads a plan. For a file that is too long or whose text is no plan a line is printed, and that is the answer of the
/// command.
pub fn with_plan<F: Files, K: Sink>(
    alloc: Global,
    file: &PlanPath<'_>,
    files: &mut F,
    out: &mut K,
) -> Result<Plan, Stop>
    ensures plan { GivesPlan file.now result
        (moment F.contents F.sound F.faults K.taken K.faults files.old out.old)
        (moment F.contents F.sound F.faults K.taken K.faults files.new out.new) }
    ensures sound { IfOk result IsPlan }
{
    let limits = file.limits();
    let text = within_limit(alloc, Opened::First, file, files, out)?;
    match plan_text::read_within(alloc, limits, &text) {
        Ok(plan) => Ok(plan),
        Err(fault) => {
            let line = bad_plan(alloc, limits, &fault)?;
            Err(early(print_last(out, line.as_slice(), Status::BadPlan)))
        }
    }
}

/// The line on a text that is no plan under limits. Want of memory while it was read says nothing of the text, and has no line.
#[tactic(auto, unfolding(crate::specs::Plans::bad_plan))]
pub fn bad_plan(alloc: Global, limits: Limits, fault: &PlanFault) -> Result<Octets, OutOfMemory>
    ensures line { IfOk result (λ line. line ≡ bad_plan limits fault.now) }
    ensures told { OnOk result (is_memory fault.now ≡ false) }
{
    if is_memory(fault) {
        return Err(OutOfMemory);
    }
    let mut line = Vec::from_slice(alloc, b"bad plan ")?;
    line.extend_from_slice(plan_fault_text(alloc, limits, fault)?.as_slice())?;
    Ok(Octets::from_vec(line))
}

fn is_memory(fault: &PlanFault) -> bool
    ensures { result ≡ is_memory fault.now }
{
    matches!(fault, PlanFault::OutOfMemory)
}
