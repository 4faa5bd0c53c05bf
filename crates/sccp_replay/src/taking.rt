//! The lines of a trace, one after the other.
ghost use Rattle.std.specs.Prelude.{◌≡◌, ◌+◌, ◌≤◌, ◌++◌, [], ◌∷◌, length, IfOk, OnOk};
ghost use Rattle.std.specs.Option.{option_map};
ghost use Rattle.sccp_report.specs.Events.{event_text};
ghost use Rattle.sccp_report.specs.Roles.{StandsIn, alone, as_due, role_of};
ghost use Rattle.sccp_replay.specs.Gathering.{HasTaken, MayBeDone, MayTake, is_skipped, joining_role, lines_in};
ghost use Rattle.sccp_work.specs.Moment.{moment};
ghost use Rattle.sccp_replay.specs.Replay.{done_alone};
ghost use Rattle.sccp_replay.specs.Settling.{TakesLine, TakesLines, WritesBatch, Gathers, StandsAlone, IsPlaced};

use crate::batch::batch_text;
use crate::batch_end::BatchEnd;
use crate::gathered::Gathered;
use crate::incoming::Incoming;
use crate::joined::{Joined, Joining};
use crate::replayer::Replayer;
use live_plan::{Gate, Host};
use sccp_base::{List, Octets, OutOfMemory};
use sccp_io::{Files, Sink};
use sccp_report::{Due, Role, Text, put_event, role_of};
use sccp_work::{Stop, put_all};
use std::alloc::Global;
use std::sync::Wait;
use std::thread::Threads;
use trace_text::{Line, Numbered};

/// Does a full batch, and writes its text.
#[tactic(auto, using(crate::proofs::TakeSteps::batch_stopped, crate::proofs::TakeSteps::batch_written))]
fn write_full<R: Threads + Wait + Sync, G: Gate + Sync, F: Files, K: Sink>(
    host: &Host<'_, R, G>,
    at: &mut Replayer,
    batch: &mut Gathered,
    files: &mut F,
    out: &mut K,
) -> Result<(), Stop>
    requires { MayBeDone at.old batch.old }
    ensures gives { WritesBatch at.old (lines_in batch.old) result at.new
        (moment F.contents F.sound F.faults K.taken K.faults files.old out.old)
        (moment F.contents F.sound F.faults K.taken K.faults files.new out.new) }
    ensures none { OnOk result (batch.new ≡ []) }
    ensures few { OnOk result (length at.new.later ≤ length at.old.later + length batch.old) }
    ensures left { F.left files.new ≡ F.left files.old }
{
    let text = batch_text(host, at, batch.take(host.alloc), files, out)?;
    put_all(out, text.into_octets().as_slice())
}

/// Adds a line to the batch that has begun. The batch is done if it is full then.
#[tactic(auto, using(
// the batch is full, or not yet, or memory ran out
crate::proofs::TakeSteps::gathers_full, crate::proofs::TakeSteps::gathers_more, crate::proofs::TakeSteps::works_memory,
// what it holds then
crate::proofs::Gathering::more_joined, crate::proofs::Gathering::more_begun, crate::proofs::Gathering::full_begun))]
fn gather<R: Threads + Wait + Sync, G: Gate + Sync, F: Files, K: Sink>(
    host: &Host<'_, R, G>,
    at: &mut Replayer,
    batch: &mut Gathered,
    one: Joined,
    files: &mut F,
    out: &mut K,
) -> Result<(), Stop>
    requires begun { MayTake 1 at.old batch.old }
    requires role { joining_role one.joining ≡ role_of at.old.first one.line.line }
    requires stands { StandsIn at.old.first (joining_role one.joining) }
    ensures gives { Gathers at.old (lines_in batch.old) one.line result at.new (lines_in batch.new)
        (moment F.contents F.sound F.faults K.taken K.faults files.old out.old)
        (moment F.contents F.sound F.faults K.taken K.faults files.new out.new) }
    ensures begun { OnOk result (HasTaken 1 at.old batch.old at.new batch.new) }
    ensures left { F.left files.new ≡ F.left files.old }
{
    batch.push(one)?;
    if batch.is_full() {
        write_full(host, at, batch, files, out)
    } else {
        Ok(())
    }
}

/// Does what a line asks for that ends a batch, and puts its text after that of the batch before it.
fn alone_text(
    alloc: Global,
    at: &mut Replayer,
    mut text: Text,
    ends: BatchEnd<'_>,
) -> Result<Octets, OutOfMemory>
    requires { StandsIn at.old.first (alone (option_map as_due ends.due)) }
    ensures at { OnOk result (at.new ≡ record at.old { states = (done_alone at.old (option_map as_due ends.entry.due)).states }) }
    ensures text { IfOk result (λ whole. whole ≡ text ++ event_text at.old.first ends.entry.line.now
        (done_alone at.old (option_map as_due ends.entry.due)).outcomes) }
{
    let BatchEnd { line, due } = ends;
    let outcomes = at.apply_alone(due)?;
    let told = put_event(alloc, &mut text, at.first(), line, &outcomes);
    drop(outcomes);
    told?;
    Ok(text.into_octets())
}

/// Takes a line that ends a batch: the batch before it is done, then what the line asks for, and both texts are written.
#[tactic(auto, using(
// the batch before the line ends the replay
crate::proofs::TakeSteps::batch_stopped, crate::proofs::TakeSteps::batch_memory,
// or both texts are written
crate::proofs::TakeSteps::alone_written))]
fn stand_alone<R: Threads + Wait + Sync, G: Gate + Sync, F: Files, K: Sink>(
    host: &Host<'_, R, G>,
    at: &mut Replayer,
    batch: &mut Gathered,
    ends: BatchEnd<'_>,
    files: &mut F,
    out: &mut K,
) -> Result<(), Stop>
    requires joined { MayBeDone at.old batch.old }
    requires stands { StandsIn at.old.first (alone (option_map as_due ends.due)) }
    ensures gives { StandsAlone at.old (lines_in batch.old) ends.entry.line.now (option_map as_due ends.entry.due) result at.new
        (moment F.contents F.sound F.faults K.taken K.faults files.old out.old)
        (moment F.contents F.sound F.faults K.taken K.faults files.new out.new) }
    ensures none { OnOk result (batch.new ≡ []) }
    ensures few { OnOk result (length at.new.later ≤ length at.old.later + length batch.old) }
    ensures left { F.left files.new ≡ F.left files.old }
{
    match batch_text(host, at, batch.take(host.alloc), files, out) {
        Ok(text) => {
            let whole = alone_text(host.alloc, at, text, ends)?;
            put_all(out, whole.as_slice())
        }
        Err(stop) => {
            drop(ends);
            Err(stop)
        }
    }
}

/// What a line of a trace is to the batch before it.
#[derive(Drop)]
enum Place {
    /// It joins it, as this.
    Joins(Joining),
    /// It ends it, and then this happens, if anything.
    Alone(Option<Due>),
}

/// Whether a line joins the batch before it, and what it is there.
fn place_of(alloc: Global, at: &Replayer, line: &Numbered) -> Result<Place, OutOfMemory>
    ensures placed { IfOk result (IsPlaced at.now.first line.now) }
{
    match role_of(alloc, at.first(), &line.line)? {
        Role::Alone(due) => Ok(Place::Alone(due)),
        Role::Routed {
            entry,
            origin,
            octets,
        } => Ok(Place::Joins(Joining::Routed(Incoming {
            entry,
            origin,
            octets,
        }))),
        Role::Later(name) => Ok(Place::Joins(Joining::Later(name))),
        Role::Aside => Ok(Place::Joins(Joining::Aside)),
    }
}

/// Takes one more line of a trace, which is not skipped.
#[tactic(auto, using(
// the line joins a batch, or ends one, or memory ran out
crate::proofs::TakeSteps::takes_gathered, crate::proofs::TakeSteps::takes_alone, crate::proofs::TakeSteps::works_memory,
// what is gathered then
crate::proofs::Gathering::may_be_done, crate::proofs::Gathering::alone_begun))]
fn take_kept<R: Threads + Wait + Sync, G: Gate + Sync, F: Files, K: Sink>(
    host: &Host<'_, R, G>,
    at: &mut Replayer,
    batch: &mut Gathered,
    line: Numbered,
    files: &mut F,
    out: &mut K,
) -> Result<(), Stop>
    requires { MayTake 1 at.old batch.old }
    ensures takes { TakesLine at.old (lines_in batch.old) line result at.new (lines_in batch.new)
        (moment F.contents F.sound F.faults K.taken K.faults files.old out.old)
        (moment F.contents F.sound F.faults K.taken K.faults files.new out.new) }
    ensures begun { OnOk result (HasTaken 1 at.old batch.old at.new batch.new) }
    ensures left { F.left files.new ≡ F.left files.old }
{
    match place_of(host.alloc, at, &line)? {
        Place::Alone(due) => {
            let ends = BatchEnd { line: &line, due };
            stand_alone(host, at, batch, ends, files, out)
        }
        Place::Joins(joining) => {
            let one = Joined { line, joining };
            gather(host, at, batch, one, files, out)
        }
    }
}

fn is_skipped(line: &Line) -> bool
    ensures { result ≡ is_skipped line.now }
{
    matches!(line, Line::Skip)
}

/// Takes one more line of a trace. A skipped one adds nothing to a batch, and is not kept.
#[tactic(auto, using(crate::proofs::Skipping::skipped_taken, crate::proofs::TakeSteps::one_taken, crate::proofs::Gathering::none_taken))]
fn take_line<R: Threads + Wait + Sync, G: Gate + Sync, F: Files, K: Sink>(
    host: &Host<'_, R, G>,
    at: &mut Replayer,
    batch: &mut Gathered,
    line: Numbered,
    files: &mut F,
    out: &mut K,
) -> Result<(), Stop>
    requires begun { MayTake 1 at.old batch.old }
    ensures takes { TakesLines at.old (lines_in batch.old) (line ∷ []) result at.new (lines_in batch.new)
        (moment F.contents F.sound F.faults K.taken K.faults files.old out.old)
        (moment F.contents F.sound F.faults K.taken K.faults files.new out.new) }
    ensures begun { OnOk result (HasTaken 1 at.old batch.old at.new batch.new) }
    ensures left { F.left files.new ≡ F.left files.old }
{
    if is_skipped(&line.line) {
        drop(line);
        return Ok(());
    }
    take_kept(host, at, batch, line, files, out)
}

/// Takes more lines of a trace, in their order.
#[tactic(auto, using(crate::proofs::Gathering::begun_taken))]
pub fn take_lines<R: Threads + Wait + Sync, G: Gate + Sync, F: Files, K: Sink>(
    host: &Host<'_, R, G>,
    at: &mut Replayer,
    batch: &mut Gathered,
    lines: List<Numbered>,
    files: &mut F,
    out: &mut K,
) -> Result<(), Stop>
    requires { MayTake (length lines) at.old batch.old }
    ensures takes { TakesLines at.old (lines_in batch.old) lines result at.new (lines_in batch.new)
        (moment F.contents F.sound F.faults K.taken K.faults files.old out.old)
        (moment F.contents F.sound F.faults K.taken K.faults files.new out.new) }
    ensures begun { OnOk result (HasTaken (length lines) at.old batch.old at.new batch.new) }
    ensures left { F.left files.new ≡ F.left files.old }
{
    for line in lines.into_vec() {
        take_line(host, at, batch, line, files, out)?;
    }
    Ok(())
}
