//! A plan that has to be accepted before a command goes on.
ghost use Rattle.std.specs.Prelude.{◌≡◌, ◌++◌, IfOk};
ghost use Rattle.plan_model.specs.Network.{IsPlan};
ghost use Rattle.plan_verify.specs.Lawful.{IsLawful, plan_of};
ghost use Rattle.sccp_report.specs.Verdicts.{verdict_text};
ghost use Rattle.sccp_work.specs.Accepting.{GivesAccepted};
ghost use Rattle.sccp_work.specs.Moment.{Moment, with_sink};
ghost use Rattle.sccp_work.specs.Verdict.{status_of};
ghost use Rattle.sccp_work.specs.Writing.{Writes};

use crate::status::Status;
use crate::stop::{Stop, early};
use crate::verdict::{lawful_text, plan_of, status_of};
use crate::writing::{after_word, print_last};
use plan_check::Accepted;
use plan_model::Plan;
use plan_verify::Verdict;
use sccp_io::Sink;
use std::alloc::Global;

/// The plan with its verdict, if it is accepted. Any other verdict is printed after the word, and is the answer of the
/// command. No file is read, so the clause holds whatever the files show.
pub fn if_accepted<K: Sink>(
    alloc: Global,
    word: &[u8],
    plan: Plan,
    out: &mut K,
) -> Result<Accepted, Stop>
    requires { IsPlan plan }
    ensures goes_on { (any : Moment) → GivesAccepted word.now plan result
        (with_sink any K.taken K.faults out.old) (with_sink any K.taken K.faults out.new) }
    ensures same { IfOk result (λ accepted. accepted.plan ≡ plan) }
{
    let verdict = plan_verify::verify(alloc, plan)?;
    match verdict {
        Verdict::Accepted(accepted) => Ok(accepted),
        other => {
            let told = tell_after(alloc, word, &other, out);
            drop(other);
            Err(early(told))
        }
    }
}

/// Prints a verdict after a word, and answers as it says.
fn tell_after<K: Sink>(
    alloc: Global,
    word: &[u8],
    verdict: &Verdict,
    out: &mut K,
) -> Result<Status, Stop>
    requires plan { IsPlan (plan_of verdict.now) }
    requires lawful { IsLawful (plan_of verdict.now) verdict.now }
    ensures text { Writes (word.now ++ verdict_text (plan_of verdict.now) verdict.now) result (K.taken out.old) (K.taken out.new)
        (K.faults out.old) (K.faults out.new) }
    ensures answer { IfOk result (λ s. s ≡ status_of verdict.now) }
{
    let text = lawful_text(alloc, plan_of(verdict), verdict)?;
    let text = after_word(alloc, word, text.as_slice())?;
    print_last(out, text.as_slice(), status_of(verdict))
}
