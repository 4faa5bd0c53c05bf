//! The commands on plans: what is read, asked and printed of a plan by itself, or of two.
//!
//! `verify` prints the verdict on a plan (ITU-T Q.714 section 2), and `covers` that on each of its covers by itself. `unused` lists
//! what no covered title uses, and `margin` says of each cover how much may be lost before one of its titles is stopped. `route`
//! follows a title while nothing is prohibited. Of two plans `change` says whether relays may hold either, and `order` in which order
//! they can be given the second one.
//!
//! The crate above may rely on this: what is read, printed and answered is the work of the command (`verify_work` and so on, one
//! file of `specs/` a command). For each command there are a cause of each answer, what gives one for sure, and what the text says
//! of the plans. That the work keeps to them is in `proofs/`, a lemma a command (`WorkCauses`).
#![tactic(auto)]

mod answer;
mod changing;
mod each_cover;
mod following;
mod loss_limit;
mod losses;
mod margin_tally;
mod measuring;
mod ordering;
mod start;
mod surveying;
mod tally;
mod verifying;

pub use changing::change;
pub use each_cover::covers;
pub use following::{UNKNOWN_NODE, route};
pub use loss_limit::LossLimit;
pub use losses::Losses;
pub use measuring::margin;
pub use ordering::order;
pub use start::{Start, StartWords, start_of};
pub use surveying::unused;
pub use verifying::verify;
