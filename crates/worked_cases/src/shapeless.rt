//! Calls of words that have no shape: all write the same line.
use sccp_io::{SoundFiles, SoundSink};
use sccp_tool::{Status, run};
use std::alloc::Global;
use std::sync::Wait;
use std::thread::Threads;

/// What became of such a call.
#[derive(Drop)]
pub(crate) struct Refused {
    /// Whether it writes exactly what a call without words writes.
    pub(crate) writes_usage: bool,
    pub(crate) status: Status,
}

/// Makes the call over no files and into memory.
pub(crate) fn call<R: Threads + Wait + Sync>(rt: &R, alloc: Global, words: &[String]) -> Refused {
    let mut files = SoundFiles::new(Vec::new(alloc));
    let mut usage = SoundSink::new(alloc);
    run(rt, alloc, &[], &mut files, &mut usage);
    let mut out = SoundSink::new(alloc);
    let status = run(rt, alloc, words, &mut files, &mut out);
    Refused {
        writes_usage: out.taken() == usage.taken(),
        status,
    }
}
