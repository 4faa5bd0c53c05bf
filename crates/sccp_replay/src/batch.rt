//! A batch of lines: its plans, its messages, and its text.
ghost use Rattle.std.specs.Prelude.{◌≡◌, ◌+◌, ◌≤◌, length, OnOk};
ghost use Rattle.sccp_replay.specs.Gathering.{MayBeDone, lines_in};
ghost use Rattle.sccp_work.specs.Moment.{moment};
ghost use Rattle.sccp_replay.specs.Settling.{GivesBatch};

use crate::joined::Joined;
use crate::replayer::Replayer;
use crate::settle::settle;
use crate::tell::tell;
use live_plan::{Gate, Host};
use sccp_base::List;
use sccp_io::{Files, Sink};
use sccp_report::Text;
use sccp_work::Stop;
use std::sync::Wait;
use std::thread::Threads;

/// The text of a batch. Its plan lines are settled first. Then its messages are routed, each under a number that its worker
/// may take and the markings that were held before the batch. What the ends leave to be done is done in the order of the
/// lines.
#[tactic(auto, using(crate::proofs::BatchSteps::settled_memory, crate::proofs::BatchSteps::batch_told))]
pub fn batch_text<R: Threads + Wait + Sync, G: Gate + Sync, F: Files, K: Sink>(
    host: &Host<'_, R, G>,
    at: &mut Replayer,
    joined: List<Joined>,
    files: &mut F,
    out: &mut K,
) -> Result<Text, Stop>
    requires { MayBeDone at.old joined }
    ensures gives { GivesBatch at.old (lines_in joined) result at.new
        (moment F.contents F.sound F.faults K.taken K.faults files.old out.old)
        (moment F.contents F.sound F.faults K.taken K.faults files.new out.new) }
    ensures first { OnOk result (at.new.first ≡ at.old.first) }
    ensures few { OnOk result (length at.new.later ≤ length at.old.later + length joined) }
    ensures left { F.left files.new ≡ F.left files.old }
{
    // This call ensures that the plans are sound.
    let _first = at.first();
    let mut coming = List::new(host.alloc);
    let settled = settle(at, &mut coming, joined, files, out)?;
    let settled = settled.as_slice();
    let served = at.route(host, settled, coming)?;
    let text = tell(host.alloc, at, settled, served.as_slice())?;
    Ok(text)
}
