//! A replay of a trace whose file gives few octets at a time.
use super::calls::words_of;
use sample_plans::BACKED;
use sccp_io::{InPieces, SoundFiles, SoundSink};
use sccp_tool::{Status, run};
use std::alloc::{AllocError, Global};
use std::sync::Wait;
use std::test::Fail;
use std::thread::Threads;

/// A message, before and after a failure of its destination, and after one of both.
const FAILURES: &str = "msg a 1-0-1 0980030E120B1206001204947101000021044301080802AABB
pause a 2-0-1
msg a 1-0-1 0980030E120B1206001204947101000021044301080802AABB
pause a 2-0-2
msg a 1-0-1 0980030E120B1206001204947101000021044301080802AABB
";

/// What is printed of them.
const FAILURES_TOLD: &str = "plan 1 f accepted bound 1
1 by 1 via a ended 2-0-1/6 0980030E120B5206001204947101000021044301080802AABB
2 pause a 2-0-1
3 by 1 via a ended 2-0-2/6 0980030E120B5206001204947101000021044301080802AABB
4 pause a 2-0-2
5 by 1 via a returned 5 marks point:2-0-1,point:2-0-2 service 0A0503071204430108080B120600120494710100002102AABB sent 1-0-1
end 5
";

/// The plan as `f`, and a trace as `g`.
pub fn with_trace(alloc: Global, trace: &[u8]) -> Result<SoundFiles, AllocError> {
    let mut files = Vec::new(alloc);
    files.push(("f".to_string(alloc)?, BACKED.as_bytes().to_vec(alloc)?))?;
    files.push(("g".to_string(alloc)?, trace.to_vec(alloc)?))?;
    Ok(SoundFiles::new(files))
}

/// Whether a trace from which this number of octets is taken at a time is Done and prints this.
fn prints<R: Threads + Wait + Sync>(
    rt: &R,
    alloc: Global,
    trace: &[u8],
    most: usize,
    want: &str,
) -> Result<bool, Fail> {
    let words = words_of(alloc, "replay f g 1")?;
    let mut files = InPieces::new(with_trace(alloc, trace)?, most);
    let mut out = SoundSink::new(alloc);
    let status = run(rt, alloc, &words, &mut files, &mut out);
    Ok(status == Status::Done && out.taken() == want.as_bytes())
}

#[test]
fn a_trace_may_come_in_pieces(rt: HostRuntime) -> Result<(), Fail> {
    let alloc = rt.alloc();
    for most in [1, 2, 7, 4096] {
        assert!(rt;
            prints(&rt, alloc, FAILURES.as_bytes(), most, FAILURES_TOLD)?,
            "in pieces of {most}"
        );
    }
    Ok(())
}
