//! The plan lines of a batch, which are settled before its messages are routed.
ghost use Rattle.std.specs.Prelude.{◌≡◌, ◌+◌, ◌≤◌, ◌++◌, [], ◌∷◌, length, IfOk, OnOk};
ghost use Rattle.plan_model.specs.Network.{IsPlan, Network};
ghost use Rattle.plan_model.specs.SameNodes.{SameNodes};
ghost use Rattle.plan_text.specs.PlanText.{plan_within};
ghost use Rattle.plan_verify.specs.Lawful.{IsLawful, plan_of};
ghost use Rattle.sccp_report.specs.Events.{event_text};
ghost use Rattle.sccp_report.specs.Roles.{StandsIn, role_of};
ghost use Rattle.sccp_report.specs.Verdicts.{verdict_text};
ghost use Rattle.sccp_replay.specs.Gathering.{MayBeDone, joining_role, lines_in};
ghost use Rattle.sccp_replay.specs.LaterPlans.{accepted_plan_line, refused_plan_head};
ghost use Rattle.sccp_work.specs.Limit.{GivesWhole};
ghost use Rattle.sccp_work.specs.Moment.{moment};
ghost use Rattle.sccp_replay.specs.Replay.{accepted, later_file, prints};
ghost use Rattle.sccp_replay.specs.Replayers.{ComesToNode, MayBeRouted, settled_in};
ghost use Rattle.sccp_replay.specs.Routings.{ArePlans, AtMostOneMore, HasRoom, ahead};
ghost use Rattle.sccp_replay.specs.Settling.{JudgesLine, GivesPlanLine, GivesPlanFile, GivesLine, GivesSettled};

use crate::joined::{Joined, Joining};
use crate::later_lines::{accepted_plan_line, bad_plan_line, other_nodes_line, refused_plan_text};
use crate::replayer::Replayer;
use crate::settled::Settled;
use plan_check::Accepted;
use plan_model::{Plan, have_same_nodes};
use plan_verify::{Verdict, verify};
use sccp_base::{List, OutOfMemory};
use sccp_io::{Files, Sink};
use sccp_report::{Text, put_event};
use sccp_work::{Opened, Stop, within_limit};
use std::alloc::Global;
use trace_text::Numbered;

/// Accepts a later plan, which counts from its line on.
fn accept_later(
    alloc: Global,
    at: &Replayer,
    coming: &mut List<Accepted>,
    line: u32,
    name: &str,
    plan: Accepted,
) -> Result<Settled, OutOfMemory>
    requires plans { HasRoom at.now.first (ahead at.now coming.old).later }
    requires same { SameNodes at.now.first plan.plan }
    ensures plans { OnOk result (AtMostOneMore at.now.first (ahead at.now coming.old).later (ahead at.now coming.new).later) }
    ensures text { IfOk result (λ s. settled_in s ≡ prints
        (accepted_plan_line line (accepted (ahead at.now coming.old) + 1) name.now plan.bound)) }
    ensures at { OnOk result (ahead at.now coming.new ≡ record (ahead at.now coming.old) {
      later = (ahead at.now coming.old).later
          ++ plan.plan ∷ [];
    }) }
    ensures fits { IfOk result (ComesToNode at.now.first) }
{
    match accepted_plan_line(alloc, line, at.accepted(coming) + 1, name, &plan) {
        Ok(text) => {
            at.accept(coming, plan)?;
            Ok(Settled::Prints(text))
        }
        Err(fault) => {
            drop(plan);
            Err(fault)
        }
    }
}

/// Refuses a later plan.
fn refuse_later(
    alloc: Global,
    line: u32,
    name: &str,
    verdict: Verdict,
) -> Result<Settled, OutOfMemory>
    requires plan { IsPlan (plan_of verdict) }
    requires lawful { IsLawful (plan_of verdict) verdict }
    ensures text { IfOk result (λ s. settled_in s ≡ prints (refused_plan_head line name.now ++ verdict_text (plan_of verdict) verdict)) }
    ensures fits { IfOk result (λ s. (first : Network) → ComesToNode first s) }
{
    let text = refused_plan_text(alloc, line, name, &verdict);
    drop(verdict);
    Ok(Settled::Prints(text?))
}

/// The verdict on a later plan of the same relays.
#[tactic(auto, using(
// each verdict
crate::proofs::LaterSteps::accepted_judges, crate::proofs::LaterSteps::refused_judges, crate::proofs::LaterSteps::wide_judges,
// no plan is added
crate::proofs::ReplayerLemmas::none_more))]
fn judge_later(
    alloc: Global,
    at: &Replayer,
    coming: &mut List<Accepted>,
    line: u32,
    name: &str,
    plan: Plan,
) -> Result<Settled, OutOfMemory>
    requires plan { IsPlan plan }
    requires same { SameNodes at.now.first plan }
    requires plans { HasRoom at.now.first (ahead at.now coming.old).later }
    ensures plans { OnOk result (AtMostOneMore at.now.first (ahead at.now coming.old).later (ahead at.now coming.new).later) }
    ensures gives { IfOk result (λ s. JudgesLine (ahead at.now coming.old) line name.now plan (ahead at.now coming.new) (settled_in s)) }
    ensures fits { IfOk result (ComesToNode at.now.first) }
{
    match verify(alloc, plan)? {
        Verdict::Accepted(accepted) => accept_later(alloc, at, coming, line, name, accepted),
        Verdict::Refused(plan, witness) => {
            refuse_later(alloc, line, name, Verdict::Refused(plan, witness))
        }
        Verdict::TooWide(plan) => refuse_later(alloc, line, name, Verdict::TooWide(plan)),
    }
}

/// What a plan line is settled to if its file has this text. It is refused first if it is no plan, next for other relays, and
/// then by its verdict.
#[tactic(auto, using(
// the same relays, others, or no plan
crate::proofs::LaterSteps::same_reads, crate::proofs::LaterSteps::other_reads, crate::proofs::LaterSteps::bad_reads,
// no plan is added
crate::proofs::ReplayerLemmas::none_more))]
fn read_later(
    alloc: Global,
    at: &Replayer,
    coming: &mut List<Accepted>,
    line: u32,
    name: &str,
    text: &[u8],
) -> Result<Settled, OutOfMemory>
    requires plans { HasRoom at.now.first (ahead at.now coming.old).later }
    ensures plans { OnOk result (AtMostOneMore at.now.first (ahead at.now coming.old).later (ahead at.now coming.new).later) }
    ensures gives { IfOk result (λ s. GivesPlanLine (ahead at.now coming.old) line name.now (plan_within at.now.first.limits text.now)
        (ahead at.now coming.new) (settled_in s)) }
    ensures fits { IfOk result (ComesToNode at.now.first) }
{
    let limits = at.limits();
    match plan_text::read_within(alloc, limits, text) {
        Ok(plan) => {
            if have_same_nodes(at.first(), &plan) {
                judge_later(alloc, at, coming, line, name, plan)
            } else {
                drop(plan);
                Ok(Settled::Prints(other_nodes_line(alloc, line, name)?))
            }
        }
        Err(fault) => Ok(Settled::Prints(bad_plan_line(alloc, line, name, limits, &fault)?)),
    }
}

/// The text of a later plan. Its file is read beside the trace, under the limits of the first plan.
fn later_text<F: Files, K: Sink>(
    at: &Replayer,
    name: &str,
    files: &mut F,
    out: &mut K,
) -> Result<Vec<u8>, Stop>
    ensures whole { GivesWhole (later_file at.now name.now) result
        (moment F.contents F.sound F.faults K.taken K.faults files.old out.old)
        (moment F.contents F.sound F.faults K.taken K.faults files.new out.new) }
    ensures left { F.left files.new ≡ F.left files.old }
{
    let file = at.later_file(name);
    within_limit(at.alloc(), Opened::Beside, &file, files, out)
}

/// Settles a plan line by the text of its file.
fn settle_plan<F: Files, K: Sink>(
    at: &Replayer,
    coming: &mut List<Accepted>,
    line: u32,
    name: &str,
    files: &mut F,
    out: &mut K,
) -> Result<Settled, Stop>
    requires plans { HasRoom at.now.first (ahead at.now coming.old).later }
    ensures plans { OnOk result (AtMostOneMore at.now.first (ahead at.now coming.old).later (ahead at.now coming.new).later) }
    ensures gives { GivesPlanFile (ahead at.now coming.old) line name.now result (ahead at.now coming.new)
        (moment F.contents F.sound F.faults K.taken K.faults files.old out.old)
        (moment F.contents F.sound F.faults K.taken K.faults files.new out.new) }
    ensures fits { IfOk result (ComesToNode at.now.first) }
    ensures left { F.left files.new ≡ F.left files.old }
{
    let text = later_text(at, name, files, out)?;
    Ok(read_later(at.alloc(), at, coming, line, name, &text)?)
}

/// Settles a line that is only printed.
fn settle_aside(alloc: Global, at: &Replayer, line: &Numbered) -> Result<Settled, OutOfMemory>
    ensures text { IfOk result (λ s. settled_in s ≡ prints (event_text at.now.first line.now [])) }
    ensures fits { IfOk result (ComesToNode at.now.first) }
{
    let mut text = Text::new(alloc);
    put_event(alloc, &mut text, at.first(), line, &List::new(alloc))?;
    Ok(Settled::Prints(text.into_octets()))
}

/// Settles a plan line whose file has this name. A file name of a trace has only visible octets of ASCII.
#[tactic(auto, using(crate::proofs::TakeSteps::works_memory))]
fn settle_named<F: Files, K: Sink>(
    at: &Replayer,
    coming: &mut List<Accepted>,
    line: u32,
    name: &[u8],
    files: &mut F,
    out: &mut K,
) -> Result<Settled, Stop>
    requires plans { HasRoom at.now.first (ahead at.now coming.old).later }
    ensures plans { OnOk result (AtMostOneMore at.now.first (ahead at.now coming.old).later (ahead at.now coming.new).later) }
    ensures gives { GivesPlanFile (ahead at.now coming.old) line name.now result (ahead at.now coming.new)
        (moment F.contents F.sound F.faults K.taken K.faults files.old out.old)
        (moment F.contents F.sound F.faults K.taken K.faults files.new out.new) }
    ensures fits { IfOk result (ComesToNode at.now.first) }
    ensures left { F.left files.new ≡ F.left files.old }
{
    match std::str::from_utf8(name) {
        Ok(name) => settle_plan(at, coming, line, name, files, out),
        Err(_) => Err(Stop::Memory),
    }
}

/// What a line of a batch is settled to.
#[tactic(auto, using(
// each kind of line
crate::proofs::LaterSteps::routed_gives, crate::proofs::LaterSteps::named_gives, crate::proofs::LaterSteps::aside_gives,
// memory ran out; no plan is added
crate::proofs::TakeSteps::works_memory, crate::proofs::ReplayerLemmas::none_more))]
fn settle_line<F: Files, K: Sink>(
    at: &Replayer,
    coming: &mut List<Accepted>,
    one: Joined,
    files: &mut F,
    out: &mut K,
) -> Result<Settled, Stop>
    requires plans { HasRoom at.now.first (ahead at.now coming.old).later }
    requires role { joining_role one.joining ≡ role_of at.now.first one.line.line }
    requires stands { StandsIn at.now.first (joining_role one.joining) }
    ensures plans { OnOk result (AtMostOneMore at.now.first (ahead at.now coming.old).later (ahead at.now coming.new).later) }
    ensures gives { GivesLine (ahead at.now coming.old) one.line result (ahead at.now coming.new)
        (moment F.contents F.sound F.faults K.taken K.faults files.old out.old)
        (moment F.contents F.sound F.faults K.taken K.faults files.new out.new) }
    ensures fits { IfOk result (ComesToNode at.now.first) }
    ensures left { F.left files.new ≡ F.left files.old }
{
    let Joined { line, joining } = one;
    match joining {
        Joining::Routed(incoming) => Ok(Settled::Routes {
            line: line.number,
            incoming,
            before: at.accepted(coming),
        }),
        Joining::Later(name) => {
            let name = name.as_slice();
            settle_named(at, coming, line.number, name, files, out)
        }
        Joining::Aside => Ok(settle_aside(at.alloc(), at, &line)?),
    }
}

/// What the lines of a batch are settled to, in their order.
pub fn settle<F: Files, K: Sink>(
    at: &Replayer,
    coming: &mut List<Accepted>,
    joined: List<Joined>,
    files: &mut F,
    out: &mut K,
) -> Result<List<Settled>, Stop>
    requires plans { ArePlans at.now.first (ahead at.now coming.old).later }
    requires joined { MayBeDone (ahead at.now coming.old) joined }
    ensures plans { OnOk result (ArePlans at.now.first (ahead at.now coming.new).later) }
    ensures gives { GivesSettled (ahead at.now coming.old) (lines_in joined) result (ahead at.now coming.new)
        (moment F.contents F.sound F.faults K.taken K.faults files.old out.old)
        (moment F.contents F.sound F.faults K.taken K.faults files.new out.new) }
    ensures few { OnOk result (length (ahead at.now coming.new).later ≤ length (ahead at.now coming.old).later + length joined) }
    ensures fits { IfOk result (MayBeRouted at.now.first) }
    ensures left { F.left files.new ≡ F.left files.old }
{
    let mut settled = List::new(at.alloc());
    for one in joined.into_vec() {
        settled.push(settle_line(at, coming, one, files, out)?)?;
    }
    Ok(settled)
}
