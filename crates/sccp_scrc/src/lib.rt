//! SCCP routing control: what a relay does with one message (ITU-T Q.714 section 2), and the return of what it cannot
//! deliver (section 4.2).
//!
//! `arrive` takes the octets that arrive from a signalling point at a node, and gives what becomes of them. They go on to
//! another relay, to a destination or to a subsystem of the node. Or they are returned with a return cause and, if the
//! sender asked for it, a service message. The crates above may rely on this. The answer is the definition of an arrival, a
//! relayed message goes to another relay of the plan, and the node holds every mark that a return names.
#![tactic(auto)]

mod arrival;
mod arriving;
mod fields;
mod here;
mod leaving;
mod lengths;
mod passed;
mod passing;
mod returning;
mod rewriting;
mod service;
mod way;

pub use arrival::Arrival;
pub use arriving::{arrive, arrive_message, arrive_stepped, is_last_hop};
pub use here::Here;
pub use leaving::octets_of;
pub use passed::Passed;
pub use passing::pass_on;
pub use returning::{asks_for_return, service_for};
pub use rewriting::{one_less, onward_address, rewrite, spot};
pub use service::Service;
pub use way::Way;
