//! Ranks of classes, and the check that they show a plan to be safe (ITU-T Q.714 section 2).
//!
//! A table gives ranks to classes of titles. If each class's rank agrees with the classes that follow it, no title is sent on
//! more often than the rank of its class says. So the plan is safe for the greatest rank of a start, whoever made the table.
//! The crates above may rely on this: every `Accepted` plan is safe for its bound, and some route has as many hops.
#![tactic(auto)]

mod accepted;
mod accepting;
mod check_fault;
mod checking;
mod classes;
mod laws;
mod leading;
mod longest;
mod rank_table;
mod ranks;
mod ranks_fault;
mod starts;
mod unchecked;

pub use accepted::Accepted;
pub use accepting::accept;
pub use check_fault::CheckFault;
pub use checking::check;
pub use laws::ranked_plans_are_safe;
pub use leading::allows;
pub use longest::Longest;
pub use rank_table::RankTable;
pub use ranks::Ranks;
pub use ranks_fault::RanksFault;
pub use unchecked::Unchecked;
