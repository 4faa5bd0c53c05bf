//! The command that replays a trace over the relays of a plan.
ghost use Rattle.sccp_work.specs.Ending.{Works};
ghost use Rattle.sccp_replay.specs.LaterPlans.{first_plan_line};
ghost use Rattle.sccp_work.specs.Moment.{moment};
ghost use Rattle.sccp_replay.specs.Replay.{replay_work, start, trace_work};
ghost use Rattle.sccp_replay.specs.Trace.{trace_of};
ghost use Rattle.sccp_work.specs.Work.{print, read};

use crate::later_lines::first_plan_line;
use crate::replayer::Replayer;
use crate::tracing::replay_trace;
use crate::workers::Workers;
use live_plan::{Gate, Host};
use plan_check::Accepted;
use sccp_io::{Files, Sink};
use sccp_work::{PlanPath, Status, Stop, if_accepted, put_all, with_plan};
use std::sync::Wait;
use std::thread::Threads;

/// What a replay is asked for: the names of the files with its first plan and its trace, and the number of its workers.
#[derive(Drop)]
struct Asked<'a> {
    plan: &'a str,
    trace: &'a str,
    workers: &'a Workers,
}

/// Replays the trace of the second file under the plan of the first one, with this number of workers. Later plans are read under
/// the limits of the first one.
#[tactic(auto, unfolding(crate::specs::Replay::replay_work))]
pub fn replay<R: Threads + Wait + Sync, G: Gate + Sync, F: Files, K: Sink>(
    host: &Host<'_, R, G>,
    plan: &PlanPath<'_>,
    trace: &str,
    workers: &Workers,
    files: &mut F,
    out: &mut K,
) -> Result<Status, Stop>
    ensures { Works (replay_work plan.now trace.now workers.now.count) result
        (moment F.contents F.sound F.faults K.taken K.faults files.old out.old)
        (moment F.contents F.sound F.faults K.taken K.faults files.new out.new) }
{
    let first = with_plan(host.alloc, plan, files, out)?;
    let accepted = if_accepted(host.alloc, b"", first, out)?;
    let asked = Asked {
        plan: plan.name(),
        trace,
        workers,
    };
    replay_accepted(host, accepted, &asked, files, out)
}

/// Writes the line of the first plan, which was accepted, and replays the trace.
fn replay_accepted<R: Threads + Wait + Sync, G: Gate + Sync, F: Files, K: Sink>(
    host: &Host<'_, R, G>,
    accepted: Accepted,
    asked: &Asked<'_>,
    files: &mut F,
    out: &mut K,
) -> Result<Status, Stop>
    ensures { Works (print (first_plan_line asked.now.plan.now accepted.bound)
        (read asked.now.trace.now (λ octets. trace_work (start asked.now.workers.now.count accepted.plan) (trace_of octets)))) result
        (moment F.contents F.sound F.faults K.taken K.faults files.old out.old)
        (moment F.contents F.sound F.faults K.taken K.faults files.new out.new) }
{
    let line = first_plan_line(host.alloc, asked.plan, &accepted)?;
    put_all(out, line.as_slice())?;
    let mut at = Replayer::new(host.rt, host.alloc, accepted, asked.workers.count())?;
    let answered = replay_trace(host, &mut at, asked.trace, files, out);
    at.end(host.rt);
    answered
}
