//! Calls over a file that is changed at random: each has to end in a documented way.
use crate::changing::changed;
use sccp_io::{SoundFiles, SoundSink};
use sccp_tool::{Status, run};
use std::alloc::{AllocError, Global};
use std::rt::Files;
use std::sync::Wait;
use std::thread::Threads;
use std::{fs, io};

const NO_FORM: &str = "the line has no form";

/// Whether a status is one that the command documents for files that are there.
fn is_documented(command: &str, status: Status) -> bool {
    match status {
        Status::Done | Status::BadCapture => true,
        Status::Differs | Status::BadTrace => command == "conform",
        _ => false,
    }
}

/// Whether each line is a message of a trace or a comment there, if the command makes a trace.
fn has_its_lines(command: &str, text: &[u8]) -> bool {
    match std::str::from_utf8(text) {
        Ok(text) => command != "capture"
            || text
                .lines()
                .all(|line| line.starts_with("msg ") || line.starts_with("# ")),
        Err(_) => false,
    }
}

/// Whether the command ends in a documented way over a plan and these octets.
fn ends_well<R: Threads + Wait + Sync>(
    rt: &R,
    alloc: Global,
    command: &str,
    plan: &[u8],
    octets: Vec<u8>,
) -> Result<bool, AllocError> {
    let mut words = Vec::new(alloc);
    for word in [command, "plan", "file"] {
        words.push(word.to_string(alloc)?)?;
    }
    let mut files = Vec::new(alloc);
    files.push(("plan".to_string(alloc)?, plan.to_vec(alloc)?))?;
    files.push(("file".to_string(alloc)?, octets))?;
    let mut files = SoundFiles::new(files);
    let mut out = SoundSink::new(alloc);
    let status = run(rt, alloc, &words, &mut files, &mut out);
    Ok(is_documented(command, status) && has_its_lines(command, out.taken()))
}

/// The calls of a command over a plan, with numbers that decide how the file is changed.
#[derive(Clone, Copy)]
struct Calls<'a> {
    first: u64,
    count: u64,
    command: &'a str,
    plan: &'a [u8],
}

/// The number of the first of these calls over changed octets that ends in another way.
fn first_other<R: Threads + Wait + Sync>(
    rt: &R,
    alloc: Global,
    calls: Calls<'_>,
    octets: &[u8],
) -> Result<Option<u64>, AllocError> {
    for turn in 0..calls.count {
        let number = calls.first.wrapping_add(turn);
        let changed = changed(alloc, octets, number)?;
        if !ends_well(rt, alloc, calls.command, calls.plan, changed)? {
            return Ok(Some(number));
        }
    }
    Ok(None)
}

/// Makes the calls of a line, and says how they end. Its words are a number of calls for each file, the number of the first, a command,
/// the name of a plan, and the names of files.
pub(crate) fn make_calls<R: AllocGlobal + Files + Threads + Wait + Sync>(
    rt: &R,
    alloc: Global,
    words: &[String],
) -> io::Result<String> {
    let [count, first, command, plan, names @ ..] = words else {
        return Ok(NO_FORM.to_string(alloc)?);
    };
    let (Ok(count), Ok(first)) = (count.parse::<u64>(), first.parse::<u64>()) else {
        return Ok(NO_FORM.to_string(alloc)?);
    };
    let plan = fs::read(rt, plan)?;
    let calls = Calls {
        first,
        count,
        command: command.as_str(),
        plan: plan.as_slice(),
    };
    for name in names {
        let octets = fs::read(rt, name)?;
        if let Some(number) = first_other(rt, alloc, calls, &octets)? {
            return Ok(format!(in alloc; "call {number} ends in another way")?);
        }
    }
    Ok("documented".to_string(alloc)?)
}
