//! The commands of the program.
//!
//! SCCP messages (ITU-T Q.713) are shown, given as a word of hexadecimal digits or in a file with one a line. Each cut of one
//! is shown, and captured ones become a trace (RFC 4666).
//!
//! A plan of relays is verified, as a whole or each cover by itself, and a title is followed through it (Q.714 section 2). What no
//! covered title uses is listed. Of each cover it is said how many points can be lost before one of its titles is stopped. A trace
//! of traffic and failures is replayed over the plan (Q.714 sections 2 to 5). A connection is made over it and released (Q.714
//! section 3). What leaves a relay is printed, a long message in segments (Q.714 section 4.1). Of two plans it is said whether
//! relays may hold either, and in which order relays can be given the second one. Of captured messages it is said which of them the
//! plan has its relays send.
//!
//! A load is made from a number, and what becomes of its messages is counted.
//!
//! The contract of `run` is what the program promises: the text that it writes and the status that it ends with, for any
//! words, files and sink, with the cause of each status. The crate above only makes the real files and the real sink and
//! passes on the words.
#![tactic(auto)]

mod capture;
mod change;
mod command;
mod conform;
mod connect;
mod covers;
mod cuts;
mod import;
mod laws;
mod load;
mod margin;
mod order;
mod program;
mod replay;
mod route;
mod send_on;
mod show;
mod show_hex;
mod unused;
mod verify;
mod whole_file;

pub use laws::{lines_tell_numbers, plans_have_one_bound};
pub use program::{run, run_gated};
pub use sccp_work::Status;
