//! One connection over a chain of coupled relays, from its request to its release (Q.714 section 3).
//!
//! An end requests a connection, and the end that is handed the request confirms it. Octets go forth and back, and the
//! connection is released. Between these steps the links deliver until none holds a message.
//!
//! The layer above may rely on this: the outcome is what the definition gives (`specs/Steps`). It depends only on the plan
//! and on what was asked for. The laws in `laws` say in a caller's words what the outcome is if nothing happened before.
#![tactic(auto)]

mod call;
mod course;
mod finding;
mod handed;
mod laws;
mod note;
mod outcome;
mod steps;

pub use call::Call;
pub use finding::Requested;
pub use handed::Handed;
pub use laws::{connections_are_answered, covered_connections_are_opened};
pub use note::Note;
pub use outcome::{Outcome, Through};
pub use steps::{connect, connect_in};
