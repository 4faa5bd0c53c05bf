//! The journey of a message from relay to relay (ITU-T Q.714 section 2), and the service message's way back (section 4.2).
//! The crate also keeps the states of the relays, and carries out what happens at one of them.
//!
//! `journey` follows the octets that arrive at a node until they are delivered, leave the relays or are returned. It gives
//! the nodes on the way. The crates above may rely on the following for an accepted plan. Take a covered message with room,
//! whose hop counter is above the plan's bound. It passes at most that many relays, whatever they have marked. It arrives
//! with unchanged data at an allowed destination, or is returned with a cause that names a mark for each closed target.
//!
//! `Net` keeps the management, the connection sections and the pool of each node. `Net::apply` carries out what happens at
//! the named node, and leaves all other nodes as they were. `Net::apply_after` does what a journey's end leaves to be done.
//! If memory runs out, nothing changes.
#![tactic(auto)]

mod back;
mod end;
mod ends;
mod happening;
mod holds_marking;
mod job;
mod laws;
mod net;
mod node_state;
mod outcome;
mod riding;
mod sending;
mod served;
mod travelled;
mod travelling;

pub use back::Back;
pub use end::End;
pub use happening::Happening;
pub use holds_marking::HoldsMarking;
pub use job::Job;
pub use laws::covered_messages_go_well;
pub use net::Net;
pub use node_state::NodeState;
pub use outcome::Outcome;
pub use served::Served;
pub use travelled::Journey;
pub use travelling::journey;
