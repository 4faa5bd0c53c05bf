//! The lines of a capture: the messages of SCCP for the relays of a plan, and a line for whatever is not such a message.
//!
//! The layer above may rely on this. `Capture` takes the packets of a capture file in their order. What it appends is exactly
//! what the definitions say of these packets (`specs/Traced`), and a message for a relay is what `import` makes of the same
//! DATA message. The lines of what is not a message, and the counts, are offered too, for a reader that does something else with
//! messages.
#![tactic(auto)]

mod capture;
mod chunks;
mod counts;
mod ending;
mod found;
mod items;
mod kind;
mod laws;
mod subject;
mod words;

pub use capture::{Capture, one_more, put_last_lines};
pub use chunks::{is_read, put_alone};
pub use counts::{Counts, counted};
pub use ending::{Ending, ending_of};
pub use items::{is_for_m3ua, is_other_m3ua, put_bare};
pub use kind::Kind;
pub use laws::{lines_fit_a_trace, lines_have_forms, messages_are_read_again};
pub use subject::Subject;
pub use words::{put_bad_chunk, put_bad_packet, put_skipped, put_skipped_number, put_unread};
