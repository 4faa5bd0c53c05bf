//! The program: it passes its words to `run`, over the real files and the standard output, and ends with the number of the
//! status that `run` answers.
//!
//! What it writes and how it ends is the contract of `run`.
#![tactic(auto)]

use sccp_io::{RealFiles, RealSink};
use sccp_tool::{Status, run};
use std::alloc::AllocError;
use std::env;
use std::io::ErrorKind;
use std::process::ExitCode;

fn main(rt: HostRuntime) -> ExitCode {
    let alloc = rt.alloc();
    let mut files = RealFiles::new(&rt);
    let mut out = RealSink::new(&rt);
    let words = match env::args(&rt) {
        Ok(words) => words.skip(1).collect(alloc),
        Err(error) if error.kind() == ErrorKind::OutOfMemory => Err(AllocError),
        // Words that are no text have no shape, as no words have.
        Err(_) => Ok(Vec::new(alloc)),
    };
    let status = match words {
        Ok(words) => run(&rt, alloc, &words, &mut files, &mut out),
        Err(_) => Status::NoMemory,
    };
    ExitCode::from(status.number())
}
