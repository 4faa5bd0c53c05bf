//! A plan of eight relays and any number of messages, made from a number, and what becomes of the messages.
//!
//! The layer above may rely on this. The same number gives the same plan and the same messages. Each plan is safe, and a
//! verdict on it comes to an end (`made_plans_are_safe`, `made_plans_reach_few`). The four counts are those of
//! the journeys of exactly these messages (ITU-T Q.714 sections 2 and 5). Relays lose and find destinations meanwhile. The
//! counts do not depend on how many workers send the messages.
#![tactic(auto)]

mod counts;
mod draws;
mod fate;
mod laws;
mod load;
mod messages;
mod parts;
mod relays;
mod rows;

pub use counts::Counts;
pub use laws::{load_counts_add_up, made_plans_are_safe, made_plans_reach_few};
pub use parts::load_counts;
pub use relays::load_plan;
