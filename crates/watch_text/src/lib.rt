//! The printed lines of captured messages that were judged against a plan, and of the end of a capture.
//!
//! `put_line` appends the line of a message: between which points it went, its type (ITU-T Q.713 section 2.1), and what `relay_watch`
//! says of it. `put_summary` appends what is said at the end of a capture. The crate above may rely on the texts being exactly those of
//! `specs/Lines` and `specs/Summaries`.
#![tactic(auto)]

mod laws;
mod lines;
mod put;
mod summaries;
mod types;
mod ways;

pub use laws::line_tells_verdict;
pub use lines::put_line;
pub use summaries::put_summary;
