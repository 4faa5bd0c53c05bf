//! Whole calls over files and sinks in memory.
ghost use Rattle.std.specs.Prelude.{◌≢◌};
ghost use Rattle.sccp_io.specs.Memory.{file_named, files_in};
ghost use Rattle.sccp_tool.specs.Commands.{task_of, texts};
ghost use Rattle.sccp_tool.specs.Run.{HasNamedFiles};

use sample_plans::BACKED;
use sccp_io::{Files, MemoryFiles, MemorySink, Sink, SoundFiles, SoundSink};
use sccp_tool::{Status, run};
use std::alloc::{AllocError, Global};
use std::sync::Wait;
use std::test::Fail;
use std::thread::Threads;

/// The words between the blanks of a line.
pub fn words_of(alloc: Global, line: &str) -> Result<Vec<String>, AllocError> {
    let mut words = Vec::new(alloc);
    for word in line.split(' ') {
        words.push(word.to_string(alloc)?)?;
    }
    Ok(words)
}

/// One file named `f`.
fn one_file(alloc: Global, octets: &[u8]) -> Result<Vec<(String, Vec<u8>)>, AllocError> {
    let mut files = Vec::new(alloc);
    files.push(("f".to_string(alloc)?, octets.to_vec(alloc)?))?;
    Ok(files)
}

/// A sink in memory fails only for want of memory, so `WriteFault` is no answer.
fn run_into_sound_sink<R: Threads + Wait + Sync, F: Files>(
    rt: &R,
    alloc: Global,
    words: &[String],
    files: &mut F,
    out: &mut SoundSink,
) -> Status
    ensures { result ≢ Status.WriteFault }
{
    run(rt, alloc, words, files, out)
}

/// Files in memory that are all there never fail, so `ReadFault` is no answer.
fn run_over_sound_files<R: Threads + Wait + Sync, K: Sink>(
    rt: &R,
    alloc: Global,
    words: &[String],
    files: Vec<(String, Vec<u8>)>,
    out: &mut K,
) -> Status
    requires { HasNamedFiles (file_named (files_in files.items)) (task_of (texts words.now)) }
    ensures { result ≢ Status.ReadFault }
{
    let mut files = SoundFiles::new(files);
    run(rt, alloc, words, &mut files, out)
}

/// The status if this call on the files fails, and whether the text is that of a read fault.
fn at_failing_call<R: Threads + Wait + Sync>(
    rt: &R,
    alloc: Global,
    line: &str,
    failing: u64,
) -> Result<(Status, bool), Fail> {
    let words = words_of(alloc, line)?;
    let failing = vec![in alloc; failing]?;
    let mut files = MemoryFiles::new(one_file(alloc, BACKED.as_bytes())?, failing);
    let mut out = SoundSink::new(alloc);
    let status = run(rt, alloc, &words, &mut files, &mut out);
    Ok((status, out.taken() == b"read fault\n".as_slice()))
}

/// The place of the first of these words, each with the call on the files that fails, that do not end by a read fault.
fn first_other<R: Threads + Wait + Sync>(
    rt: &R,
    alloc: Global,
    rows: &[(&str, u64)],
) -> Result<Option<usize>, Fail> {
    for (place, (line, failing)) in rows.iter().enumerate() {
        if at_failing_call(rt, alloc, line, *failing)? != (Status::ReadFault, true) {
            return Ok(Some(place));
        }
    }
    Ok(None)
}

/// Words, and the call on the files that fails.
const FAILING: [(&str, u64); 29] = [
    ("show f", 0),
    ("show f", 1),
    ("show f", 2),
    ("show g", 9),
    ("verify f", 0),
    ("verify f", 1),
    ("verify f", 2),
    ("verify g", 9),
    ("covers f", 0),
    ("covers f", 2),
    ("covers g", 9),
    ("unused f", 0),
    ("unused f", 2),
    ("unused g", 9),
    ("margin f 1", 0),
    ("margin f 1", 2),
    ("margin g 1", 9),
    ("route f b 4:0:1:4 6 49", 0),
    ("route f b 4:0:1:4 6 49", 1),
    ("route f b 4:0:1:4 6 49", 2),
    ("route g b 4:0:1:4 6 49", 9),
    ("replay f f 1", 0),
    ("replay f f 1", 1),
    ("replay f f 1", 2),
    ("replay g f 1", 9),
    ("conform f f", 0),
    ("conform f f", 3),
    ("conform f f", 5),
    ("conform f g", 9),
];

/// The file of a command is begun by the first call, the second takes its octets, and the third finds its end. An absent one
/// fails at the first.
#[test]
fn a_fault_of_the_files_ends_the_call(rt: HostRuntime) -> Result<(), Fail> {
    assert_eq!(rt; first_other(&rt, rt.alloc(), &FAILING)?, None);
    Ok(())
}

/// The status if the first call on the sink fails, and whether it took nothing.
fn at_failing_sink<R: Threads + Wait + Sync>(
    rt: &R,
    alloc: Global,
    line: &str,
) -> Result<(Status, bool), Fail> {
    let words = words_of(alloc, line)?;
    let failing = vec![in alloc; 0]?;
    let mut files = SoundFiles::new(one_file(alloc, BACKED.as_bytes())?);
    let mut out = MemorySink::new(alloc, failing);
    let status = run(rt, alloc, &words, &mut files, &mut out);
    Ok((status, out.taken() == b"".as_slice()))
}

/// Words that write something at once.
const WRITING: [&str; 11] = [
    "show-hex 00",
    "show-hex 0",
    "show f",
    "show g",
    "verify f",
    "covers f",
    "unused f",
    "margin f 1",
    "route f a 4:0:1:4 6 49",
    "replay f g 1",
    "conform f f",
];

/// The place of the first of these words that do not end so by a write fault.
fn first_unfailing<R: Threads + Wait + Sync>(
    rt: &R,
    alloc: Global,
    lines: &[&str],
) -> Result<Option<usize>, Fail> {
    for (place, line) in lines.iter().enumerate() {
        if at_failing_sink(rt, alloc, line)? != (Status::WriteFault, true) {
            return Ok(Some(place));
        }
    }
    Ok(None)
}

#[test]
fn a_fault_of_the_sink_ends_the_call(rt: HostRuntime) -> Result<(), Fail> {
    assert_eq!(rt; first_unfailing(&rt, rt.alloc(), &WRITING)?, None);
    Ok(())
}
