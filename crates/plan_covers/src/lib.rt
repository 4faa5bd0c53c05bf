//! Covers of a plan that add nothing to another cover (ITU-T Q.714 section 2).
//!
//! A cover adds nothing to another one if that one has all its titles and allows no other places. The crates above may rely on two
//! facts. The listed covers are exactly those that add nothing to another one, and of equal covers the first is not listed. The
//! plan without all listed covers is safe for the same bounds.
#![tactic(auto)]

mod cover_key;
mod cover_order;
mod laws;
mod needless;

pub use cover_key::CoverKey;
pub use cover_order::{PlacedKey, count_below, order_of};
pub use laws::{titles_are_within, without_needless};
pub use needless::{Needless, needless_covers};
