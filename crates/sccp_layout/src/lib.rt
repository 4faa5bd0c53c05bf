//! The places of the parts of a message (ITU-T Q.713 sections 1, 2 and 4). The table of the twenty types of message says
//! which parts a message has. They are the fixed part, the pointers, the variable parts and the list of optional parameters.
//!
//! `layout` is the table. `split` takes a message apart by it, or gives the first fault. `join` puts the parts together
//! again, and `join_parts` does so for parts that are kept apart. The layer above may rely on two facts. Octets are
//! split exactly if they have parts by their type's layout, into only those parts, which fit the layout. What is joined
//! from parts that fit is split into the same parts.
#![tactic(auto)]

mod fixed;
mod joining;
mod param;
mod part;
mod parts;
mod shape;
mod splitting;
mod table;

pub use fixed::Fixed;
pub use joining::{join, join_parts};
pub use param::{Param, copied_params};
pub use part::Part;
pub use parts::{JoinFault, Parts, SplitFault};
pub use shape::Layout;
pub use splitting::split;
pub use table::layout;
