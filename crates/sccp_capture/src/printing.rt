//! The loop over a capture file.
ghost use Rattle.std.specs.Prelude.{◌≡◌, ◌++◌, map, OnOk};
ghost use Rattle.capture_file.specs.Views.{captured};
ghost use Rattle.sccp_capture.specs.Printing.{after_packets, end_work, file_work, status_of, text_of_packets};
ghost use Rattle.sccp_capture.specs.Steps.{PrintsPackets};
ghost use Rattle.sccp_work.specs.Ending.{Works};
ghost use Rattle.sccp_work.specs.Moment.{Moment, moment, with_sink};

use capture_file::{FileFault, Held, Reader};
use capture_trace::{Capture, Ending};
use plan_model::Plan;
use sccp_base::OutOfMemory;
use sccp_io::{Files, Sink};
use sccp_work::{Status, Stop, print_last, put_all, stopped};
use std::alloc::Global;

/// How many octets are taken at a time.
const PIECE: usize = 65_536;

/// The answer of a capture that ends so.
fn status_of(ending: Ending) -> Status
    ensures { result ≡ status_of ending }
{
    match ending {
        Ending::Whole => Status::Done,
        Ending::Cut => Status::Done,
        Ending::Damaged => Status::BadCapture,
    }
}

/// Appends the lines of packets.
fn put_packets(
    text: &mut Vec<u8>,
    plan: &Plan,
    capture: &mut Capture,
    packets: &[Held<'_>],
) -> Result<(), OutOfMemory>
    ensures now { OnOk result (capture.new ≡ after_packets plan.now (map captured packets.now) capture.old) }
    ensures text { OnOk result (text.new.items ≡ text.old.items ++ text_of_packets plan.now (map captured packets.now) capture.old) }
{
    for held in packets {
        capture.take(plan, held, text)?;
    }
    Ok(())
}

/// Prints the lines of packets. No file is read, so the clause holds whatever the files show. The text is only memory for the
/// lines, which each call uses anew.
fn print_packets<K: Sink>(
    text: &mut Vec<u8>,
    plan: &Plan,
    capture: &mut Capture,
    packets: &[Held<'_>],
    out: &mut K,
) -> Result<(), Stop>
    ensures { (any : Moment) → PrintsPackets plan.now (map captured packets.now) capture.old result capture.new
        (with_sink any K.taken K.faults out.old) (with_sink any K.taken K.faults out.new) }
{
    text.clear();
    put_packets(text, plan, capture, packets)?;
    put_all(out, text.as_slice())
}

/// Prints the last lines. No file is read, so the clause holds whatever the files show.
fn print_end<K: Sink>(
    text: &mut Vec<u8>,
    capture: &mut Capture,
    fault: Option<FileFault>,
    out: &mut K,
) -> Result<Status, Stop>
    ensures { (any : Moment) → Works (end_work fault capture.old) result
        (with_sink any K.taken K.faults out.old) (with_sink any K.taken K.faults out.new) }
{
    text.clear();
    let ending = capture.finish(fault, text)?;
    print_last(out, text.as_slice(), status_of(ending))
}

/// Prints the lines of a capture file as it is read, under a plan. After a damage nothing more is read.
pub fn print_capture<F: Files, K: Sink>(
    alloc: Global,
    plan: &Plan,
    name: &str,
    files: &mut F,
    out: &mut K,
) -> Result<Status, Stop>
    ensures { Works (file_work plan.now name.now) result
        (moment F.contents F.sound F.faults K.taken K.faults files.old out.old)
        (moment F.contents F.sound F.faults K.taken K.faults files.new out.new) }
{
    if let Err(fault) = files.begin(name) {
        return Err(stopped(fault));
    }
    let mut reader = Reader::new(alloc);
    let mut capture = Capture::new(alloc)?;
    let mut text = Vec::new(alloc);
    let mut piece = [0u8; PIECE];
    for _turn in 0..u64::MAX {
        let taken = match files.take(&mut piece) {
            Ok(taken) => taken,
            Err(fault) => return Err(stopped(fault)),
        };
        if taken == 0 {
            let fault = reader.finish();
            return print_end(&mut text, &mut capture, fault, out);
        }
        let fed = reader.feed(&piece[..taken])?;
        print_packets(&mut text, plan, &mut capture, fed.packets.as_slice(), out)?;
        if fed.fault.is_some() {
            return print_end(&mut text, &mut capture, fed.fault, out);
        }
    }
    Err(Stop::Memory)
}
