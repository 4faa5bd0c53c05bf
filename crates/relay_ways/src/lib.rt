//! Under which markings a relay sends a message because of an arrival (ITU-T Q.714 sections 2, 4.2 and 5).
//!
//! A marking is what a node holds prohibited. What becomes of a message depends on the marking only by which target is the
//! first open one, by whether a subsystem of the node is prohibited, and by whether the way of a service message is shut. So
//! the markings fall into a few cases, each with a `Condition`. The crates above may rely on `AreWays` and `AreConditions`:
//! over all markings, the ways are what the node sends, and the conditions are exactly those under which it sends a message.
#![tactic(auto)]

mod alike;
mod all_ways;
mod candidate;
mod condition;
mod explaining;
mod explanation;
mod handling;
mod incoming;
mod laws;
mod markings;
mod outcomes;
mod own_service;
mod reason;
mod reasoning;
mod returning;
mod settling;
mod turn_steps;
mod turns;
mod way;
mod would_send;
mod writing;

pub use alike::{calling, is_alike};
pub use all_ways::ways;
pub use candidate::Candidate;
pub use condition::Condition;
pub use explaining::explain;
pub use explanation::Explanation;
pub use handling::{Handling, Taken};
pub use incoming::Incoming;
pub use laws::{markings_are_least, shortest_conditions_are_one, turns_are_steps};
pub use markings::{begins, next_marking};
pub use reason::Reason;
pub use reasoning::why_not;
pub use settling::settled;
pub use way::{Sending, Way};
pub use would_send::candidates;
