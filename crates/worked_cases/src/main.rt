//! Calls of the commands that are worked out by hand, each made over the files that lie beside it.
//!
//! The file `calls` is the list. Each of its lines is printed as it is.
//!
//! - A line that begins with `>` is a call, with a blank and a word for each of its words, so that two blanks in a row, or one
//!   at the end, spell an empty word. What `run` writes is printed after it, and then a line with its status.
//! - A line that begins with `?` is a call in the same form, but of words that have no shape. If it writes what a call without
//!   words writes, the usage line, `usage` is printed in its place, and `other` if not; then its status.
//! - A line that begins with `*` has the words COUNT FIRST COMMAND PLAN FILE..: COMMAND is called COUNT times for each file, which is
//!   changed at random by the number of the call, the first of which is FIRST. If each call ends with a status that the command documents
//!   and prints lines of its form, `documented` is printed, and else the number of the first that does not.
//! - A line that begins with `+` adds to a file that is made: it has a number, a blank, and a piece that is put at the end that
//!   number of times. In a piece `|` is a line feed, `^` a carriage return, and `%` two digits that count from 00 on.
//! - A line that begins with `!` has a blank and a name: the file that was made is written under it, and the next one begins.
//! - Every other line says what the calls after it show.
#![tactic(auto)]

mod changed;
mod changing;
mod made;
mod shapeless;
mod words;

use sccp_io::{RealFiles, RealSink};
use sccp_tool::run;
use std::{fs, io};

fn main(rt: HostRuntime) -> io::Result<()> {
    let alloc = rt.alloc();
    let mut files = RealFiles::new(&rt);
    let mut out = RealSink::new(&rt);
    let mut made = Vec::new(alloc);
    let calls = fs::read_to_string(&rt, "calls")?;
    for line in calls.lines() {
        println!(rt; "{line}")?;
        made::make(&rt, &mut made, line)?;
        if let Some(words) = words::after(alloc, '>', line)? {
            let status = run(&rt, alloc, &words, &mut files, &mut out);
            println!(rt; "= {}", status.number())?;
        }
        if let Some(words) = words::after(alloc, '?', line)? {
            let refused = shapeless::call(&rt, alloc, &words);
            let text = if refused.writes_usage {
                "usage"
            } else {
                "other"
            };
            println!(rt; "{text}")?;
            println!(rt; "= {}", refused.status.number())?;
        }
        if let Some(words) = words::after(alloc, '*', line)? {
            println!(rt; "{}", changed::make_calls(&rt, alloc, &words)?)?;
        }
    }
    Ok(())
}
