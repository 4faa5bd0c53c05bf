//! The printed text of an order of the steps of a changeover.
//!
//! `order_text` gives a line for each step, with its relays and its bound. Without an order it shows, for each relay that is left, the
//! mixed route that goes wrong if that relay is next. The crate above may rely on the text being exactly that of `specs/Orders`.
//! A mixed route has the lines that `sccp_report` gives it.
#![tactic(auto)]

mod order;
mod stuck;

pub use order::order_text;
