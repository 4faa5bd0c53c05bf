//! SCCP management at one node (Q.714 section 5): which points, SCCPs and subsystems are prohibited. Status messages are
//! sent about them (Q.713 section 5).
//!
//! A `Manager` keeps the marking of its node, and `on` carries out one event by a table with a row for each. The layer above
//! may rely on this. A mark is held afterwards exactly if the event's row prohibits it, or it was held and the row does not
//! allow it. The messages are those of the row, in its order, octet by octet. No node ever takes its own point or its own
//! SCCP for prohibited.
#![tactic(auto)]

mod event;
mod laws;
mod manager;
mod marking;
mod sent;
mod status;

pub use event::Event;
pub use laws::status_messages_are_read;
pub use manager::Manager;
pub use sent::Sent;
pub use status::{StatusKind, StatusMessage};
