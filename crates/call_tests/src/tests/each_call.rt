//! A replay of which each call on its files fails in turn, and each call on its sink.
use super::calls::words_of;
use sample_plans::BACKED;
use sccp_io::{Files, IoFault, MemoryFiles, MemorySink, Sink, SoundFiles, SoundSink};
use sccp_tool::{Status, run};
use std::alloc::{AllocError, Global};
use std::sync::Wait;
use std::test::Fail;
use std::thread::Threads;

/// The first plan without its backup.
const WITHOUT_BACKUP: &str = r#"version = 1
[[node]]
name = "a"
point = "1-0-2"
subsystems = [8]
[[node.row]]
selector = "4:0:1:4"
prefix = "49"
first = { final = "2-0-1", ssn = 6 }
[[cover]]
node = "a"
selector = "4:0:1:4"
ssn = 6
prefix = "49"
least = 12
most = 12
allowed = ["2-0-1/6", "2-0-2/6"]
"#;

/// A message under the first plan and one under a later plan.
const TRACE: &str = "msg a 1-0-1 0980030E120B1206001204947101000021044301080802AABB
fence
plan h
fence
msg a 1-0-1 0980030E120B1206001204947101000021044301080802AABB
";

/// What is printed of them if nothing fails.
const TOLD: &str = "plan 1 f accepted bound 1
1 by 1 via a ended 2-0-1/6 0980030E120B5206001204947101000021044301080802AABB
3 plan 2 h accepted bound 1
5 by 2 via a ended 2-0-1/6 0980030E120B5206001204947101000021044301080802AABB
end 5
";

/// The first plan as `f`, the trace as `g`, and the later plan as `h`.
fn files(alloc: Global) -> Result<Vec<(String, Vec<u8>)>, AllocError> {
    let mut files = Vec::new(alloc);
    for (name, text) in [("f", BACKED), ("g", TRACE), ("h", WITHOUT_BACKUP)] {
        files.push((name.to_string(alloc)?, text.as_bytes().to_vec(alloc)?))?;
    }
    Ok(files)
}

/// Whether a text is this number of first lines of those that are printed if nothing fails.
fn are_first_lines(text: &[u8], lines: usize) -> bool {
    TOLD.as_bytes().starts_with(text)
        && text.iter().filter(|octet| **octet == b'\n').count() == lines
}

/// Whether the replay ends with a read fault if this call on its files fails, and with these lines before the fault's own.
/// The next call fails too, and it has to be the first that is made here: so none was made after the failing one.
fn ends_at_reading<R: Threads + Wait + Sync>(
    rt: &R,
    alloc: Global,
    line: &str,
    call: u8,
    lines: usize,
) -> Result<bool, Fail> {
    let words = words_of(alloc, line)?;
    let failing = vec![in alloc; u64::from(call), u64::from(call) + 1]?;
    let mut files = MemoryFiles::new(files(alloc)?, failing);
    let mut out = SoundSink::new(alloc);
    let status = run(rt, alloc, &words, &mut files, &mut out);
    let next = files.begin("f");
    let told = match out.taken().strip_suffix(b"read fault\n") {
        Some(front) => are_first_lines(front, lines),
        None => false,
    };
    Ok(status == Status::ReadFault && told && next == Err(IoFault::Failed))
}

/// A call on the files, and how many lines are printed before its fault's own. A plan is begun, taken and found to be at its
/// end by a call each. The trace is begun and taken whole; before its end the later plan is read beside it.
const READINGS: [(u8, usize); 9] = [
    (0, 0),
    (1, 0),
    (2, 0),
    (3, 1),
    (4, 1),
    (5, 2),
    (6, 2),
    (7, 2),
    (8, 3),
];

/// The first of these calls on the files whose failure does not end the replay so.
fn first_other_reading<R: Threads + Wait + Sync>(
    rt: &R,
    alloc: Global,
    line: &str,
    calls: &[(u8, usize)],
) -> Result<Option<u8>, Fail> {
    for (call, lines) in calls {
        if !ends_at_reading(rt, alloc, line, *call, *lines)? {
            return Ok(Some(*call));
        }
    }
    Ok(None)
}

#[test]
fn each_call_on_the_files_may_fail(rt: HostRuntime) -> Result<(), Fail> {
    let alloc = rt.alloc();
    assert_eq!(rt;
        first_other_reading(&rt, alloc, "replay f g 1", &READINGS)?,
        None
    );
    assert_eq!(rt;
        first_other_reading(&rt, alloc, "replay f g 4", &READINGS)?,
        None
    );
    Ok(())
}

/// Whether the replay ends with a write fault if this call on its sink fails, and with these lines before it. The next call
/// fails too, and it has to be the first that is made here: so none was made after the failing one.
fn ends_at_writing<R: Threads + Wait + Sync>(
    rt: &R,
    alloc: Global,
    line: &str,
    call: u8,
    lines: usize,
) -> Result<bool, Fail> {
    let words = words_of(alloc, line)?;
    let mut files = SoundFiles::new(files(alloc)?);
    let failing = vec![in alloc; u64::from(call), u64::from(call) + 1]?;
    let mut out = MemorySink::new(alloc, failing);
    let status = run(rt, alloc, &words, &mut files, &mut out);
    let told = are_first_lines(out.taken(), lines);
    Ok(status == Status::WriteFault && told && out.put(b"x") == Err(IoFault::Failed))
}

/// A call on the sink, and how many lines are printed before. The first plan's line is written for itself, then each batch
/// with the line after it, and the last one with the last line.
const WRITINGS: [(u8, usize); 4] = [(0, 0), (1, 1), (2, 2), (3, 3)];

/// The first of these calls on the sink whose failure does not end the replay so.
fn first_other_writing<R: Threads + Wait + Sync>(
    rt: &R,
    alloc: Global,
    line: &str,
    calls: &[(u8, usize)],
) -> Result<Option<u8>, Fail> {
    for (call, lines) in calls {
        if !ends_at_writing(rt, alloc, line, *call, *lines)? {
            return Ok(Some(*call));
        }
    }
    Ok(None)
}

#[test]
fn each_call_on_the_sink_may_fail(rt: HostRuntime) -> Result<(), Fail> {
    let alloc = rt.alloc();
    assert_eq!(rt;
        first_other_writing(&rt, alloc, "replay f g 1", &WRITINGS)?,
        None
    );
    assert_eq!(rt;
        first_other_writing(&rt, alloc, "replay f g 4", &WRITINGS)?,
        None
    );
    Ok(())
}

/// Whether all is done and printed if call 9 on the files and call 4 on the sink are to fail.
fn makes_no_further_call<R: Threads + Wait + Sync>(rt: &R, alloc: Global) -> Result<bool, Fail> {
    let words = words_of(alloc, "replay f g 1")?;
    let mut files = MemoryFiles::new(files(alloc)?, vec![in alloc; 9]?);
    let mut out = MemorySink::new(alloc, vec![in alloc; 4]?);
    let status = run(rt, alloc, &words, &mut files, &mut out);
    Ok(status == Status::Done && out.taken() == TOLD.as_bytes())
}

/// No call is left out above: if the next one is to fail, none does.
#[test]
fn no_further_call_is_made(rt: HostRuntime) -> Result<(), Fail> {
    assert!(rt; makes_no_further_call(&rt, rt.alloc())?);
    Ok(())
}
