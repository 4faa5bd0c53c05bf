//! What every command of the program is made of: its work as one value, the files that it reads whole, the plan that it reads
//! first, the verdict on that plan, the text that it writes, and what ends it early.
//!
//! The crates above may rely on this: what a command does is its `Work` (`specs/Work`), and a call of this crate says how work
//! goes on from what the call gave, or how it has ended. A file that a command needs whole has at most as many octets as its
//! limits allow, 1,048,576 under the standard ones.
#![tactic(auto)]

mod accepted_plan;
mod accepting;
mod limit;
mod line_fault;
mod opened;
mod plan_path;
mod plans;
mod reading;
mod status;
mod stop;
mod verdict;
mod writing;

pub use accepted_plan::with_accepted;
pub use accepting::if_accepted;
pub use limit::within_limit;
pub use line_fault::bad_line;
pub use opened::Opened;
pub use plan_path::PlanPath;
pub use plans::{bad_plan, with_plan};
pub use reading::stopped;
pub use status::Status;
pub use stop::{Stop, early};
pub use verdict::{lawful_text, plan_of, tell_verdict};
pub use writing::{after_word, print_last, put_all};
