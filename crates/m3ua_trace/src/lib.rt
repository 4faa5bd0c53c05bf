//! DATA messages of M3UA (RFC 4666 section 3.3.1), one a line in hexadecimal digits, become a trace of SCCP messages.
//!
//! The layer above may rely on this. Each line of the file gives one line of the trace. That is the message for a node of
//! the plan that the DATA message carries, or a line that is skipped and says why. The trace has no faulty line. What becomes
//! of what a message carries is a value, too, so that it can be printed under another head.
#![tactic(auto)]

mod import_error;
mod imported;
mod importing;
mod lines;

pub use import_error::ImportError;
pub use imported::Imported;
pub use importing::{fault_number, imported_payload, put_message};
pub use lines::{import, octets_of_line};
