//! The user messages of SCTP associations, put together from DATA chunks in the order of a capture (RFC 9260, sections
//! 3.3.1 and 6.9).
//!
//! The crate above may rely on this: `Gatherer::take` gives exactly what the definitions give for each chunk, and the functions
//! of `laws` say what that means for the chunks of any capture. What is kept is bounded, whatever the capture.
#![tactic(auto)]

mod chunks;
mod fragment;
mod gatherer;
mod given;
mod key;
mod laws;
mod place;
mod run;
mod seen;
mod taking;
mod waiting;

pub use fragment::Fragment;
pub use gatherer::Gatherer;
pub use given::Given;
pub use key::Key;
pub use laws::{
    messages_are_whole, no_chunk_is_given_twice, repeats_are_found, repeats_arrived_before,
    whole_messages_are_given,
};
pub use place::Place;
