//! The verdict on a plan: the answer that it is, and its text.
ghost use Rattle.std.specs.Prelude.{◌≡◌, IfOk};
ghost use Rattle.plan_model.specs.Network.{IsPlan};
ghost use Rattle.plan_verify.specs.Lawful.{IsLawful, plan_of};
ghost use Rattle.sccp_report.specs.Verdicts.{verdict_text};
ghost use Rattle.sccp_work.specs.Verdict.{status_of};
ghost use Rattle.sccp_work.specs.Writing.{Writes};

use crate::status::Status;
use crate::stop::Stop;
use crate::writing::print_last;
use plan_model::Plan;
use plan_verify::Verdict;
use sccp_base::{Octets, OutOfMemory};
use sccp_io::Sink;
use sccp_report::verdict_text;
use std::alloc::Global;

/// Prints a verdict, and answers as it says.
pub fn tell_verdict<K: Sink>(alloc: Global, verdict: &Verdict, out: &mut K) -> Result<Status, Stop>
    requires plan { IsPlan (plan_of verdict.now) }
    requires lawful { IsLawful (plan_of verdict.now) verdict.now }
    ensures text { Writes (verdict_text (plan_of verdict.now) verdict.now) result (K.taken out.old) (K.taken out.new) (K.faults out.old)
        (K.faults out.new) }
    ensures answer { IfOk result (λ s. s ≡ status_of verdict.now) }
{
    let text = lawful_text(alloc, plan_of(verdict), verdict)?;
    print_last(out, text.as_slice(), status_of(verdict))
}

/// The text of a lawful verdict, whose route stays in the plan.
pub fn lawful_text(alloc: Global, plan: &Plan, verdict: &Verdict) -> Result<Octets, OutOfMemory>
    requires plan { IsPlan plan.now }
    requires same { plan_of verdict.now ≡ plan.now }
    requires lawful { IsLawful plan.now verdict.now }
    ensures { IfOk result (λ text. text ≡ verdict_text plan.now verdict.now) }
{
    verdict_text(alloc, plan, verdict)
}

/// The plan that the verdict is on.
pub fn plan_of(verdict: &Verdict) -> &Plan
    ensures { result.now ≡ plan_of verdict.now }
{
    match verdict {
        Verdict::Accepted(accepted) => accepted.plan(),
        Verdict::Refused(plan, _) | Verdict::TooWide(plan) => plan,
    }
}

/// The answer of a verdict.
pub fn status_of(verdict: &Verdict) -> Status
    ensures { result ≡ status_of verdict.now }
{
    match verdict {
        Verdict::Accepted(_) => Status::Done,
        Verdict::Refused(_, _) => Status::Refused,
        Verdict::TooWide(_) => Status::TooWide,
    }
}
