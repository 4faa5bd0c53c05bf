//! A capture file, pcap or pcapng, that is read in pieces, and whose lines are printed as it is read.
//!
//! The crate above may rely on this: what is read, printed and answered is the work on the file (`file_work`, `specs/Printing`),
//! however the file is cut into pieces, and what is printed are the lines of the whole capture.
#![tactic(auto)]

mod laws;
mod printing;

pub use laws::what_is_printed_are_the_lines;
pub use printing::print_capture;
