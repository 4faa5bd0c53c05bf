//! The command that says whether relays may hold either of two plans.
ghost use Rattle.std.specs.Prelude.{◌≡◌, IfOk};
ghost use Rattle.sccp_plans.specs.Change.{change_work, change_status, IsAnswered};
ghost use Rattle.sccp_work.specs.Ending.{Works};
ghost use Rattle.sccp_work.specs.Moment.{moment};
ghost use Rattle.sccp_work.specs.declared.status.Status.TheVariants.{OtherNodes};
ghost use Rattle.sccp_plans.specs.Texts.{other_nodes};
ghost use Rattle.sccp_plans.specs.TwoPlans.{old_word, new_word};

use crate::answer::Answer;
use plan_change::{Change, ChangeFault};
use plan_check::Accepted;
use sccp_base::{Octets, OutOfMemory};
use sccp_io::{Files, Sink};
use sccp_report::change_text;
use sccp_work::{PlanPath, Status, Stop, print_last, with_accepted};
use std::alloc::Global;

/// The words before what is printed of the old plan.
pub const OLD: &[u8] = b"old ";

/// The words before what is printed of the new plan.
pub const NEW: &[u8] = b"new ";

const OTHER_NODES: &[u8] = b"other nodes\n";

/// Prints whether relays may hold either of the plans of two files. The first file that has no accepted plan gives the
/// answer.
#[tactic(auto, unfolding(crate::specs::TwoPlans::old_word, crate::specs::TwoPlans::new_word))]
pub fn change<F: Files, K: Sink>(
    alloc: Global,
    old: &PlanPath<'_>,
    new: &PlanPath<'_>,
    files: &mut F,
    out: &mut K,
) -> Result<Status, Stop>
    ensures { Works (change_work old.now new.now) result
        (moment F.contents F.sound F.faults K.taken K.faults files.old out.old)
        (moment F.contents F.sound F.faults K.taken K.faults files.new out.new) }
{
    let first = with_accepted(alloc, OLD, old, files, out)?;
    match with_accepted(alloc, NEW, new, files, out) {
        Ok(second) => {
            let answer = answer_on(alloc, &first, &second);
            drop(first);
            drop(second);
            let answer = answer?;
            print_last(out, answer.text.as_slice(), answer.status)
        }
        Err(stop) => {
            drop(first);
            Err(stop)
        }
    }
}

/// The answer on two plans of other nodes.
#[tactic(auto, unfolding(crate::specs::Texts::other_nodes))]
pub fn other_nodes(alloc: Global) -> Result<Answer, OutOfMemory>
    ensures status { IfOk result (λ answer. answer.status ≡ OtherNodes) }
    ensures text { IfOk result (λ answer. answer.text ≡ other_nodes) }
{
    Ok(Answer {
        status: Status::OtherNodes,
        text: Octets::from_vec(Vec::from_slice(alloc, OTHER_NODES)?),
    })
}

/// The answer on two accepted plans.
fn answer_on(alloc: Global, old: &Accepted, new: &Accepted) -> Result<Answer, OutOfMemory>
    ensures { IfOk result (λ answer. IsAnswered old.now.plan new.now.plan answer.status answer.text) }
{
    match plan_change::change(alloc, old, new) {
        Ok(change) => Ok(Answer {
            status: status_of_change(&change),
            text: change_text(alloc, old.plan(), new.plan(), &change)?,
        }),
        Err(ChangeFault::OtherNodes) => other_nodes(alloc),
        Err(ChangeFault::OutOfMemory) => Err(OutOfMemory),
    }
}

/// The status of an answer on two plans.
fn status_of_change(change: &Change) -> Status
    ensures { result ≡ change_status change.now }
{
    match change {
        Change::Kept { .. } => Status::Done,
        Change::Broken { .. } => Status::Refused,
        Change::TooWide => Status::TooWide,
    }
}
