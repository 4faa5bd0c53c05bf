//! A capture that is read or judged, of which each call on its files fails in turn, and each call on its sink.
use super::calls::words_of;
use sample_plans::BACKED;
use sccp_io::{Files, InPieces, IoFault, MemoryFiles, MemorySink, Sink, SoundFiles, SoundSink};
use sccp_tool::{Status, run};
use std::alloc::{AllocError, Global};
use std::sync::Wait;
use std::test::Fail;
use std::thread::Threads;

/// The heading of a pcap file of MTP3 (link 141), least significant octets first.
const HEADING: &[u8] =
    b"\xD4\xC3\xB2\xA1\x02\x00\x04\x00\x00\x00\x00\x00\x00\x00\x00\x00\x00\x00\x04\x00\x8D\x00\x00\x00";

/// A record of 34 octets: a message of MTP3 from 1-0-1 to 1-0-2.
const RECORD: &[u8] = b"\x00\xF1\x53\x65\x00\x00\x00\x00\x12\x00\x00\x00\x12\x00\x00\x00\
\x83\x02\x48\x00\x52\x09\x00\x03\x05\x07\x02\x42\x06\x02\x42\x08\x01\xAA";

/// Its line.
const LINE: &[u8] = b"msg a 1-0-1 090003050702420602420801AA\n";

/// The last line of twenty such records.
const LAST: &[u8] = b"# end packets 20 messages 20 left 0 repeated 0 others 0 faults 0\n";

/// The most octets that a call on the files gives. A plan is one piece, and a capture of twenty records two: sixteen records
/// are whole in the first.
const PIECE: usize = 600;

/// Octets, and then others, this number of times, and then those of a third text.
fn repeated(
    alloc: Global,
    before: &[u8],
    octets: &[u8],
    times: u8,
    after: &[u8],
) -> Result<Vec<u8>, AllocError> {
    let mut all = before.to_vec(alloc)?;
    for _turn in 0..times {
        all.extend_from_slice(octets)?;
    }
    all.extend_from_slice(after)?;
    Ok(all)
}

/// The plan as `f`, and the capture as `g`.
fn files(alloc: Global) -> Result<Vec<(String, Vec<u8>)>, AllocError> {
    let capture = repeated(alloc, HEADING, RECORD, 20, b"")?;
    let mut files = Vec::new(alloc);
    files.push(("f".to_string(alloc)?, BACKED.as_bytes().to_vec(alloc)?))?;
    files.push(("g".to_string(alloc)?, capture))?;
    Ok(files)
}

/// Whether the command ends with a read fault if this call on its files fails, and with these lines before the fault's own.
/// The next call fails too, and it has to be the first that is made here: so none was made after the failing one.
fn ends_at_reading<R: Threads + Wait + Sync>(
    rt: &R,
    alloc: Global,
    command: &str,
    call: u8,
    lines: u8,
) -> Result<bool, Fail> {
    let words = words_of(alloc, command)?;
    let failing = vec![in alloc; u64::from(call), u64::from(call) + 1]?;
    let mut files = InPieces::new(MemoryFiles::new(files(alloc)?, failing), PIECE);
    let mut out = SoundSink::new(alloc);
    let status = run(rt, alloc, &words, &mut files, &mut out);
    let next = files.begin("f");
    let told = repeated(alloc, b"", LINE, lines, b"read fault\n")?;
    Ok(
        status == Status::ReadFault
            && out.taken() == told.as_slice()
            && next == Err(IoFault::Failed),
    )
}

/// A call on the files, and how many lines are printed before its fault's own. The plan is begun, taken and found to be at its
/// end by a call each. The capture is begun, taken in two pieces, and found to be at its end.
const READINGS: [(u8, u8); 7] = [(0, 0), (1, 0), (2, 0), (3, 0), (4, 0), (5, 16), (6, 20)];

/// The same calls if the capture is judged: nothing is printed before all of it was read.
const JUDGINGS: [(u8, u8); 7] = [(0, 0), (1, 0), (2, 0), (3, 0), (4, 0), (5, 0), (6, 0)];

/// The first of these calls on the files whose failure does not end the command so.
fn first_other_reading<R: Threads + Wait + Sync>(
    rt: &R,
    alloc: Global,
    command: &str,
    calls: &[(u8, u8)],
) -> Result<Option<u8>, Fail> {
    for (call, lines) in calls {
        if !ends_at_reading(rt, alloc, command, *call, *lines)? {
            return Ok(Some(*call));
        }
    }
    Ok(None)
}

#[test]
fn each_read_of_a_capture_may_fail(rt: HostRuntime) -> Result<(), Fail> {
    let alloc = rt.alloc();
    assert_eq!(rt;
        first_other_reading(&rt, alloc, "capture f g", &READINGS)?,
        None
    );
    Ok(())
}

#[test]
fn each_read_of_a_judged_capture_may_fail(rt: HostRuntime) -> Result<(), Fail> {
    let alloc = rt.alloc();
    assert_eq!(rt;
        first_other_reading(&rt, alloc, "conform f g", &JUDGINGS)?,
        None
    );
    Ok(())
}

/// Whether the command ends with a write fault if this call on its sink fails, and with these lines before it. The next call
/// fails too, and it has to be the first that is made here: so none was made after the failing one.
fn ends_at_writing<R: Threads + Wait + Sync>(
    rt: &R,
    alloc: Global,
    call: u8,
    lines: u8,
) -> Result<bool, Fail> {
    let words = words_of(alloc, "capture f g")?;
    let mut files = InPieces::new(SoundFiles::new(files(alloc)?), PIECE);
    let failing = vec![in alloc; u64::from(call), u64::from(call) + 1]?;
    let mut out = MemorySink::new(alloc, failing);
    let status = run(rt, alloc, &words, &mut files, &mut out);
    let told = repeated(alloc, b"", LINE, lines, b"")?;
    let same = out.taken() == told.as_slice();
    Ok(status == Status::WriteFault && same && out.put(b"x") == Err(IoFault::Failed))
}

/// A call on the sink, and how many lines are printed before. The lines of each piece are written at once.
const WRITINGS: [(u8, u8); 3] = [(0, 0), (1, 16), (2, 20)];

/// The first of these calls on the sink whose failure does not end the command so.
fn first_other_writing<R: Threads + Wait + Sync>(
    rt: &R,
    alloc: Global,
    calls: &[(u8, u8)],
) -> Result<Option<u8>, Fail> {
    for (call, lines) in calls {
        if !ends_at_writing(rt, alloc, *call, *lines)? {
            return Ok(Some(*call));
        }
    }
    Ok(None)
}

#[test]
fn each_write_of_a_capture_may_fail(rt: HostRuntime) -> Result<(), Fail> {
    let alloc = rt.alloc();
    assert_eq!(rt; first_other_writing(&rt, alloc, &WRITINGS)?, None);
    Ok(())
}

/// Whether all is done and printed if call 7 on the files and call 3 on the sink are to fail.
fn makes_no_further_call<R: Threads + Wait + Sync>(rt: &R, alloc: Global) -> Result<bool, Fail> {
    let words = words_of(alloc, "capture f g")?;
    let mut files = InPieces::new(MemoryFiles::new(files(alloc)?, vec![in alloc; 7]?), PIECE);
    let mut out = MemorySink::new(alloc, vec![in alloc; 3]?);
    let status = run(rt, alloc, &words, &mut files, &mut out);
    let told = repeated(alloc, b"", LINE, 20, LAST)?;
    Ok(status == Status::Done && out.taken() == told.as_slice())
}

/// Whether all is done if call 7 on the files is to fail, and the capture is judged.
fn judges_without_a_further_call<R: Threads + Wait + Sync>(
    rt: &R,
    alloc: Global,
) -> Result<bool, Fail> {
    let words = words_of(alloc, "conform f g")?;
    let mut files = InPieces::new(MemoryFiles::new(files(alloc)?, vec![in alloc; 7]?), PIECE);
    let mut out = SoundSink::new(alloc);
    Ok(run(rt, alloc, &words, &mut files, &mut out) == Status::Done)
}

/// No call is left out above: if the next one is to fail, none does.
#[test]
fn no_further_call_of_a_capture_is_made(rt: HostRuntime) -> Result<(), Fail> {
    assert!(rt; makes_no_further_call(&rt, rt.alloc())?);
    Ok(())
}

#[test]
fn no_further_call_of_a_judged_capture_is_made(rt: HostRuntime) -> Result<(), Fail> {
    assert!(rt; judges_without_a_further_call(&rt, rt.alloc())?);
    Ok(())
}
