//! The command that lists what no covered title of a plan can use.
ghost use Rattle.std.specs.Prelude.{◌≡◌, IfOk};
ghost use Rattle.plan_model.specs.Network.{IsPlan};
ghost use Rattle.sccp_plans.specs.Unused.{unused_work, survey_status, IsListed};
ghost use Rattle.sccp_work.specs.Ending.{Works};
ghost use Rattle.sccp_work.specs.Moment.{moment};

use crate::answer::Answer;
use plan_model::Plan;
use plan_unused::{Survey, find_unused};
use sccp_base::OutOfMemory;
use sccp_io::{Files, Sink};
use sccp_report::survey_text;
use sccp_work::{PlanPath, Status, Stop, print_last, with_plan};
use std::alloc::Global;

/// Prints what no covered title of the plan of a file can use, and titles that a relay has no row for.
pub fn unused<F: Files, K: Sink>(
    alloc: Global,
    file: &PlanPath<'_>,
    files: &mut F,
    out: &mut K,
) -> Result<Status, Stop>
    ensures { Works (unused_work file.now) result
        (moment F.contents F.sound F.faults K.taken K.faults files.old out.old)
        (moment F.contents F.sound F.faults K.taken K.faults files.new out.new) }
{
    let plan = with_plan(alloc, file, files, out)?;
    let answer = survey(alloc, &plan);
    drop(plan);
    let answer = answer?;
    print_last(out, answer.text.as_slice(), answer.status)
}

/// The survey of a plan as an answer.
fn survey(alloc: Global, plan: &Plan) -> Result<Answer, OutOfMemory>
    requires { IsPlan plan.now }
    ensures { IfOk result (λ answer. IsListed plan.now answer.status answer.text) }
{
    let survey = find_unused(alloc, plan)?;
    let status = status_of(&survey);
    let text = survey_text(alloc, plan, &survey);
    drop(survey);
    Ok(Answer {
        status,
        text: text?,
    })
}

/// The status of a survey.
fn status_of(survey: &Survey) -> Status
    ensures { result ≡ survey_status survey.now }
{
    match survey {
        Survey::Unused(_) => Status::Done,
        Survey::TooWide => Status::TooWide,
    }
}
