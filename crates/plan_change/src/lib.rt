//! Whether two accepted plans may be mixed while each relay holds either of them (ITU-T Q.714 section 2).
//!
//! The walk goes hop by hop over classes of titles that both plans cover. After each hop it has the classes that a title can be
//! in, whichever plan each relay held and whatever it had prohibited. If no class is left, the mixture is safe for that number
//! of hops. If a title of a class has a bad end, or a fifteenth hop, it is carried back, relay by relay. The result is a title
//! that both plans cover. The crates above may rely on each answer being true of the two plans.
//!
//! `mixture` also takes what each relay may hold meanwhile, one of the plans or either. If nothing is said of a relay, it may hold
//! either.
#![tactic(auto)]

mod answer;
mod carrying;
mod change_fault;
mod changing;
mod entering;
mod following;
mod halt;
mod laws;
mod layer;
mod mixed_hop;
mod mixing;
mod near;
mod open_hop;
mod plans;
mod starting;
mod stop;
mod turn;
mod walking;
mod way;
mod witness;

pub use answer::Change;
pub use change_fault::ChangeFault;
pub use changing::{change, mixture};
pub use laws::{bad_routes_refuse_what_they_fit, changes_are_exact, fewer_holdings_stay_safe};
pub use mixed_hop::MixedHop;
pub use mixing::mixed_hops;
pub use plan_mixed::{Holding, Which};
pub use turn::Turn;
