//! The text of a trace of signalling messages: its lines, and the limits of lines for any file that is read by lines. The
//! text may arrive in any pieces. The forms of the lines are this project's own; the messages in them are those of Q.713.
//!
//! The layer above may rely on this: what a `Reader` has reported of its pieces is what the definitions give for all octets
//! together. A limit that a line breaks is reported as soon as the octet that breaks it has arrived.
#![tactic(auto)]

mod fed;
mod file_name;
mod forms;
mod hex_word;
mod line;
mod line_fault;
mod lines;
mod reader;
mod reading;

pub use fed::Fed;
pub use file_name::is_file_name;
pub use hex_word::octets_of;
pub use line::{Line, Numbered};
pub use line_fault::{LineFault, LineKind};
pub use lines::{FirstLine, content, first_line};
pub use reader::Reader;
