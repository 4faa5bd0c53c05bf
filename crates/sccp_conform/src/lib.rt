//! A file of captured messages, a text of DATA messages of M3UA (RFC 4666), one a line, or a capture file, whose messages of SCCP are
//! judged against a plan of relays.
//!
//! The crate above may rely on this. The items of the file are judged in their order, and the text of a report is that of the items with
//! the lines of this judgement (`IsReport`, `specs/Reports`). What is read, printed and answered is the work on the file (`file_work`),
//! however it is cut into pieces.
#![tactic(auto)]

mod judging;
mod long_text;
mod on_file;
mod partly;
mod report;

pub use on_file::judge_file;
