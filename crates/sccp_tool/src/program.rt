//! The whole program, without its edge.
ghost use Rattle.std.specs.Prelude.{◌≡◌, Some, Err};
ghost use Rattle.sccp_tool.specs.Commands.{task_of, texts};
ghost use Rattle.sccp_work.specs.Ending.{Works, Closes, answer_of};
ghost use Rattle.sccp_work.specs.Moment.{moment};
ghost use Rattle.sccp_tool.specs.Parsed.{task_in};
ghost use Rattle.sccp_tool.specs.Promise.{Promise};
ghost use Rattle.sccp_tool.specs.Run.{work_of};

use crate::capture::capture;
use crate::command::{Command, parse};
use crate::conform::conform;
use crate::connect::connect;
use crate::cuts::cuts;
use crate::import::import;
use crate::load::load;
use crate::send_on::send_on;
use crate::show::show;
use crate::show_hex::show_hex;
use live_plan::{Gate, OpenGate};
use sccp_base::OutOfMemory;
use sccp_io::{Files, Sink};
use sccp_plans::{change, covers, margin, order, route, unused, verify};
use sccp_replay::{Host, replay};
use sccp_work::{Status, Stop, print_last};
use std::alloc::Global;
use std::sync::Wait;
use std::thread::Threads;

const USAGE: &[u8] = b"\
    usage: show-hex HEX | show FILE | verify PLAN | route PLAN NODE SELECTOR SSN DIGITS | replay PLAN TRACE WORKERS | \
    load NUMBER SIZE WORKERS | cuts HEX | change OLD NEW | connect PLAN NODE FROM SELECTOR SSN DIGITS HEX | \
    send-on PLAN NODE ORIGIN SIZE HEX | import PLAN FILE | covers PLAN | unused PLAN | margin PLAN LOSSES [subsystems] | \
    capture PLAN FILE | order OLD NEW | conform PLAN FILE | wide COMMAND\n";

const READ_FAULT: &[u8] = b"read fault\n";

/// Does what the words ask for, and answers how it ended. It may wait for the workers of a replay.
pub fn run<R: Threads + Wait + Sync, F: Files, K: Sink>(
    rt: &R,
    alloc: Global,
    words: &[String],
    files: &mut F,
    out: &mut K,
) -> Status
    ensures { Promise (task_of (texts words.now)) result
        (moment F.contents F.sound F.faults K.taken K.faults files.old out.old)
        (moment F.contents F.sound F.faults K.taken K.faults files.new out.new) }
{
    run_gated(rt, alloc, words, files, out, &OpenGate)
}

/// Does what `run` does, and informs the gate of the course of each batch. A test uses it to let the workers wait for each
/// other. With one worker the gate hears nothing.
pub fn run_gated<R: Threads + Wait + Sync, F: Files, K: Sink, G: Gate + Sync>(
    rt: &R,
    alloc: Global,
    words: &[String],
    files: &mut F,
    out: &mut K,
    gate: &G,
) -> Status
    ensures { Promise (task_of (texts words.now)) result
        (moment F.contents F.sound F.faults K.taken K.faults files.old out.old)
        (moment F.contents F.sound F.faults K.taken K.faults files.new out.new) }
{
    let worked = carry_out(rt, gate, alloc, words, files, out);
    close(worked, out)
}

/// Does the work of the words.
fn carry_out<R: Threads + Wait + Sync, G: Gate + Sync, F: Files, K: Sink>(
    rt: &R,
    gate: &G,
    alloc: Global,
    words: &[String],
    files: &mut F,
    out: &mut K,
) -> Result<Status, Stop>
    ensures { Works (work_of (task_of (texts words.now))) result
        (moment F.contents F.sound F.faults K.taken K.faults files.old out.old)
        (moment F.contents F.sound F.faults K.taken K.faults files.new out.new) }
{
    match parse(alloc, words) {
        Ok(Some(command)) => {
            let obeyed = obey(rt, gate, alloc, &command, files, out);
            drop(command);
            obeyed
        }
        Ok(None) => print_last(out, USAGE, Status::Usage),
        Err(OutOfMemory) => Err(Stop::Memory),
    }
}

/// Does the work of a command.
fn obey<R: Threads + Wait + Sync, G: Gate + Sync, F: Files, K: Sink>(
    rt: &R,
    gate: &G,
    alloc: Global,
    command: &Command<'_>,
    files: &mut F,
    out: &mut K,
) -> Result<Status, Stop>
    ensures { Works (work_of (task_in (Some command.now))) result
        (moment F.contents F.sound F.faults K.taken K.faults files.old out.old)
        (moment F.contents F.sound F.faults K.taken K.faults files.new out.new) }
{
    match command {
        Command::ShowHex(octets) => show_hex(alloc, octets.as_slice(), out),
        Command::Show(name) => show(alloc, name, files, out),
        Command::Verify(file) => verify(alloc, file, files, out),
        Command::Route(file, start) => route(alloc, file, start, files, out),
        Command::Replay(plan, trace, workers) => {
            let host = Host { rt, gate, alloc };
            replay(&host, plan, trace, workers, files, out)
        }
        Command::Load(number, size, workers) => load(rt, alloc, *number, *size, workers, out),
        Command::Cuts(octets) => cuts(alloc, octets.as_slice(), out),
        Command::Import(plan, file) => import(alloc, plan, file, files, out),
        Command::Change(old, new) => change(alloc, old, new, files, out),
        Command::Connect(file, calling) => connect(alloc, file, calling, files, out),
        Command::SendOn(file, incoming) => send_on(alloc, file, incoming, files, out),
        Command::Covers(file) => covers(alloc, file, files, out),
        Command::Unused(file) => unused(alloc, file, files, out),
        Command::Margin(file, losses) => margin(alloc, file, losses, files, out),
        Command::Capture(plan, file) => capture(alloc, plan, file, files, out),
        Command::Order(old, new) => order(alloc, old, new, files, out),
        Command::Conform(plan, file) => conform(alloc, plan, file, files, out),
    }
}

/// The answer of the call.
fn close<K: Sink>(worked: Result<Status, Stop>, out: &mut K) -> Status
    ensures { Closes worked result (K.taken out.old) (K.taken out.new) (K.faults out.old) (K.faults out.new) }
{
    match worked {
        Ok(status) => status,
        Err(stop) => tell(stop, out),
    }
}

/// The answer if the work ended early. For a fault of the files a line of its own is printed.
fn tell<K: Sink>(stop: Stop, out: &mut K) -> Status
    ensures { Closes (Err stop) result (K.taken out.old) (K.taken out.new) (K.faults out.old) (K.faults out.new) }
{
    match stop {
        Stop::Answered(status) => status,
        Stop::Read => answer_of(print_last(out, READ_FAULT, Status::ReadFault)),
        Stop::Write => Status::WriteFault,
        Stop::Memory => Status::NoMemory,
    }
}

/// The answer that a result means.
fn answer_of(worked: Result<Status, Stop>) -> Status
    ensures { result ≡ answer_of worked }
{
    match worked {
        Ok(status) => status,
        Err(Stop::Answered(status)) => status,
        Err(Stop::Read) => Status::ReadFault,
        Err(Stop::Write) => Status::WriteFault,
        Err(Stop::Memory) => Status::NoMemory,
    }
}
