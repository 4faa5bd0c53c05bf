//! A trace that is read and replayed in pieces.
ghost use Rattle.std.specs.Prelude.{◌≡◌, ◌+◌, ◌≤◌, ◌++◌, [], length, IfOk, OnOk};
ghost use Rattle.sccp_work.specs.Ending.{Works};
ghost use Rattle.sccp_replay.specs.Gathering.{MayBeDone, lines_in};
ghost use Rattle.sccp_replay.specs.Progress.{IsCounted};
ghost use Rattle.sccp_work.specs.Moment.{moment};
ghost use Rattle.sccp_replay.specs.Replay.{closing_of, end_line, lines_work, trace_work};
ghost use Rattle.sccp_replay.specs.Replaying.{IsFed, rest_work};
ghost use Rattle.sccp_replay.specs.Settling.{TakesLines};
ghost use Rattle.sccp_replay.specs.Trace.{trace_of};
ghost use Rattle.sccp_work.specs.Work.{read};

use crate::batch::batch_text;
use crate::gathered::Gathered;
use crate::progress::Progress;
use crate::replayer::Replayer;
use crate::taking::take_lines;
use live_plan::{Gate, Host};
use sccp_base::{List, OutOfMemory};
use sccp_io::{Files, Sink};
use sccp_report::Text;
use sccp_work::{Status, Stop, bad_line, print_last, stopped};
use std::alloc::Global;
use std::sync::Wait;
use std::thread::Threads;
use trace_text::{LineFault, Numbered, Reader};

/// How many octets are taken at a time.
const PIECE: usize = 4096;

/// More than the octets of any trace: before that number is read, a line is too long or there is one too many.
const MOST_PIECES: u64 = 8_200_000_000;

#[tactic(auto, unfolding(crate::specs::Replay::end_line))]
fn put_end(text: &mut Text, count: usize) -> Result<(), OutOfMemory>
    ensures { OnOk result (text.new ≡ text.old ++ end_line count) }
{
    text.put_counted(b"end ", count)?;
    text.put(b"\n")
}

/// Appends the last line: how many lines the trace has, or the fault of the line after them.
fn put_closing(
    alloc: Global,
    text: &mut Text,
    count: usize,
    fault: Option<LineFault>,
) -> Result<Status, OutOfMemory>
    ensures text { OnOk result (text.new ≡ text.old ++ (closing_of count fault).1) }
    ensures status { IfOk result (λ s. s ≡ (closing_of count fault).0) }
{
    match fault {
        None => {
            put_end(text, count)?;
            Ok(Status::Done)
        }
        Some(fault) => {
            text.put(&bad_line(alloc, fault)?)?;
            Ok(Status::BadTrace)
        }
    }
}

/// Does the last batch, and writes its text with the last line.
#[tactic(auto, using(
// the last batch ends the replay
crate::proofs::TakeSteps::closing_stopped, crate::proofs::TakeSteps::closing_memory,
// or its text is written
crate::proofs::TakeSteps::closing_written))]
fn write_last<R: Threads + Wait + Sync, G: Gate + Sync, F: Files, K: Sink>(
    host: &Host<'_, R, G>,
    at: &mut Replayer,
    progress: &mut Progress,
    fault: Option<LineFault>,
    files: &mut F,
    out: &mut K,
) -> Result<Status, Stop>
    requires joined { MayBeDone at.old progress.old.batch }
    ensures { Works (lines_work (closing_of progress.old.count fault) at.old (lines_in progress.old.batch) []) result
        (moment F.contents F.sound F.faults K.taken K.faults files.old out.old)
        (moment F.contents F.sound F.faults K.taken K.faults files.new out.new) }
{
    let mut text = batch_text(host, at, progress.batch.take(host.alloc), files, out)?;
    let status = put_closing(host.alloc, &mut text, progress.count, fault)?;
    print_last(out, text.into_octets().as_slice(), status)
}

/// Takes the lines that a reader gave, and counts them.
#[tactic(auto, using(crate::proofs::Gathering::may_take, crate::proofs::Gathering::counted))]
fn take_told<R: Threads + Wait + Sync, G: Gate + Sync, F: Files, K: Sink>(
    host: &Host<'_, R, G>,
    at: &mut Replayer,
    progress: &mut Progress,
    lines: List<Numbered>,
    files: &mut F,
    out: &mut K,
) -> Result<(), Stop>
    requires begun { IsCounted at.old progress.old }
    requires few { progress.old.count + length lines ≤ 1000000 }
    ensures takes { TakesLines at.old (lines_in progress.old.batch) lines result at.new (lines_in progress.new.batch)
        (moment F.contents F.sound F.faults K.taken K.faults files.old out.old)
        (moment F.contents F.sound F.faults K.taken K.faults files.new out.new) }
    ensures count { OnOk result (progress.new.count ≡ progress.old.count + length lines) }
    ensures begun { OnOk result (IsCounted at.new progress.new) }
    ensures left { F.left files.new ≡ F.left files.old }
{
    let more = lines.as_slice().len();
    take_lines(host, at, &mut progress.batch, lines, files, out)?;
    progress.count += more;
    Ok(())
}

/// Takes the end of the trace: its last line, if no line feed ends it, and what is written then.
#[tactic(auto, using(crate::proofs::TakeSteps::last_taken, crate::proofs::TakeSteps::last_stopped, crate::proofs::TakeSteps::works_memory))]
fn take_end<R: Threads + Wait + Sync, G: Gate + Sync, F: Files, K: Sink>(
    host: &Host<'_, R, G>,
    at: &mut Replayer,
    progress: &mut Progress,
    reader: &mut Reader,
    files: &mut F,
    out: &mut K,
) -> Result<Status, Stop>
    requires begun { IsCounted at.old progress.old }
    requires fed { IsFed reader.old progress.old.count 0 }
    ensures { Works (rest_work progress.old.count at.old (lines_in progress.old.batch) [] reader.old []) result
        (moment F.contents F.sound F.faults K.taken K.faults files.old out.old)
        (moment F.contents F.sound F.faults K.taken K.faults files.new out.new) }
{
    let fed = reader.finish()?;
    take_told(host, at, progress, fed.lines, files, out)?;
    write_last(host, at, progress, fed.fault, files, out)
}

/// Replays the trace of a file: its lines in batches, each written as soon as it is done. No later plan was accepted yet.
pub fn replay_trace<R: Threads + Wait + Sync, G: Gate + Sync, F: Files, K: Sink>(
    host: &Host<'_, R, G>,
    at: &mut Replayer,
    name: &str,
    files: &mut F,
    out: &mut K,
) -> Result<Status, Stop>
    requires none { at.old.later ≡ [] }
    ensures { Works (read name.now (λ octets. trace_work at.old (trace_of octets))) result
        (moment F.contents F.sound F.faults K.taken K.faults files.old out.old)
        (moment F.contents F.sound F.faults K.taken K.faults files.new out.new) }
{
    if let Err(fault) = files.begin(name) {
        return Err(stopped(fault));
    }
    let mut reader = Reader::new(host.alloc);
    let batch = Gathered::new(host.alloc);
    let mut progress = Progress { batch, count: 0 };
    let mut piece = [0u8; PIECE];
    for _turn in 0..MOST_PIECES {
        let taken = match files.take(&mut piece) {
            Ok(taken) => taken,
            Err(fault) => return Err(stopped(fault)),
        };
        if taken == 0 {
            return take_end(host, at, &mut progress, &mut reader, files, out);
        }
        let fed = reader.feed(&piece[..taken])?;
        take_told(host, at, &mut progress, fed.lines, files, out)?;
        if fed.fault.is_some() {
            return write_last(host, at, &mut progress, fed.fault, files, out);
        }
    }
    unreachable!()
}
