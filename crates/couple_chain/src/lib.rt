//! Chains of coupled relays: connections over several relays, whose links keep order (Q.714 section 3).
//!
//! A world is the state of all relays and links after offers of ends and deliveries of links, one after another. The layer
//! above may rely on the laws in `laws`. They hold for every list of happenings, whatever the order in which the links
//! deliver. What leaves a connection at one end is the beginning of what entered it at the other. If no link holds a message,
//! it is all of that.
#![tactic(auto)]

mod delivered;
mod happening;
mod laws;
mod noting;
mod offer_fault;
mod passed;
mod relay;

pub use delivered::Delivered;
pub use happening::Happening;
pub use laws::{
    fresh_is_tested, lines_keep_order, lines_start_at_one_section, relays_note_what_passed,
    what_is_sent_can_be_handled,
};
pub use offer_fault::OfferFault;
pub use passed::Passed;
pub use relay::{Prepared, Relay};
