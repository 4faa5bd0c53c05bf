//! Two plans side by side (ITU-T Q.714 section 2). The crate gives the titles that both cover, and the classes of titles that
//! are followed while each relay holds one plan or the other.
//!
//! A class is decided for both plans if each of them has one row, or none, for all its titles. The crates above may rely on
//! this: `shared` has exactly the titles that a cover of each plan has. So a walk from there covers every title that both
//! plans cover.
#![tactic(auto)]

mod deciding;
mod holding;
mod sharing;
mod which;

pub use deciding::{decided_by_both, held};
pub use holding::{Holding, chosen, may_hold};
pub use sharing::{new_of, old_of, pair, shared};
pub use which::Which;
