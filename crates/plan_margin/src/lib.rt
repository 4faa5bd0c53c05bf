//! How many losses there can be before a title of a cover is stopped (ITU-T Q.714 sections 2 and 5).
//!
//! A loss is a signalling point or, if they count, a subsystem that a relay has itself. An outage is a set of losses that all relays
//! hold prohibited. A title is stopped if it does not reach a place that its cover allows within fourteen hops. The search goes over
//! classes of titles and sets of outages together, for no loss, for one, for two and so on. The crates above may rely on two facts.
//! A title that is shown is stopped by the shown losses, and no fewer stop any title of the cover. A cover that is said to survive
//! does survive.
#![tactic(auto)]

mod choice;
mod finding;
mod found;
mod laws;
mod loss_kinds;
mod margin;
mod outage_set;
mod search;
mod stop;
mod turn;

pub use finding::find_margin;
pub use laws::{
    margins_are_one, no_hop_is_at_a_lost_relay, sccp_marks_add_nothing, stopped_titles_are_blocked,
    subsystems_add_losses,
};
pub use loss_kinds::LossKinds;
pub use margin::Margin;
pub use stop::Stop;
