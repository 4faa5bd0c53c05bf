//! What no covered title of a plan can use (ITU-T Q.714 section 2).
//!
//! The walk goes hop by hop over classes of titles, from those of the covers on, for at most fourteen hops. It notes each relay, row
//! and target that some title uses, and each cover of which some title gets to a relay without a row for it. The crates above may
//! rely on this: a survey lists exactly what is unused, of any plan, whether it is safe or not.
#![tactic(auto)]

mod entering;
mod finding;
mod first_hops;
mod fitting;
mod halt;
mod laws;
mod listing;
mod looking;
mod rows;
mod seen;
mod stop;
mod survey;
mod walking;

pub use finding::find_unused;
pub use laws::safe_plans_use_within_fourteen;
pub use plan_covers::Needless;
pub use survey::{Gap, RowPlace, Survey, TargetPlace, Unused};
