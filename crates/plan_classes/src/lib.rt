//! Classes of titles: sets of titles at a relay that are followed together.
//!
//! A class has some known digits. Its titles go on with further decimal ones, whose number is within a range. The crates
//! above may rely on four facts (ITU-T Q.714 section 2). The parts of a class have exactly its titles. A decided class has
//! one row, or none. `reaches` says whether some marking leaves a target the first open one. The image of a decided class
//! under a target has exactly the titles that the target makes of its own. So a search over classes covers every title and
//! every marking.
#![tactic(auto)]

mod carrying;
mod class;
mod class_rows;
mod imaging;
mod laws;
mod leads;
mod opens;
mod reaching;
mod splitting;
mod starts;

pub use carrying::carry_back;
pub use class::Class;
pub use class_rows::{class_row, decided};
pub use imaging::{image, image_by};
pub use laws::{alone_reaches_fewer, classes_are_ordered, reaches_fewer};
pub use leads::Image;
pub use opens::opening;
pub use reaching::{reaches, reaches_by};
pub use splitting::parts;
pub use starts::{longest, sample, start};
