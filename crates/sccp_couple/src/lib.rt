//! The coupling of class 2 connections at one relay (Q.714 section 3). It keeps the sections of connections, and says what
//! each connection-oriented message does to them and what is sent.
//!
//! The layer above may rely on the laws in `laws`. They hold for every list of messages, whatever plans and markings say of
//! the requests among them. What one side of a pair passes on is sent to its other side, in order and unchanged. Each data
//! message that is sent belongs to exactly one pair, and none is made up.
#![tactic(auto)]

mod answering;
mod connection_confirm;
mod connection_request;
mod exchange;
mod finding;
mod laws;
mod making;
mod params;
mod references;
mod released;
mod releasing;
mod requesting;
mod routing_control;
mod section;
mod sections;
mod sending;
mod short;
mod way;

pub use exchange::Exchange;
pub use finding::section_at;
pub use laws::{
    all_is_sent, each_goes_to_one_section, each_is_of_one_pair, none_is_made_up, steps_keep,
};
pub use section::Section;
pub use short::{is_connection, vouch_short};
pub use way::Way;
