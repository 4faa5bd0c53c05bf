//! Segmentation and reassembly of connectionless messages (Q.714 section 4.1, Q.713 section 3.17).
//!
//! `split_data` cuts data into segments, and a `Pool` puts the segments of up to 64 messages together, whatever other
//! segments arrive between them. The layer above may rely on this. The data of the segments is the data that was cut. A pool
//! answers a whole message exactly if the segments of its key, from the last first one on, arrived in step. The answer has
//! their data. A segment changes nothing for the messages of other keys.
#![tactic(auto)]

mod arrival;
mod cutting;
mod key;
mod laws;
mod pool;
mod pool_fault;
mod run;
mod segment;
mod split_data_fault;
mod taken;
mod taking;

pub use arrival::Arrival;
pub use cutting::split_data;
pub use key::Key;
pub use laws::{keys_are_values, pieces_are_whole, pieces_come_whole, whole_messages};
pub use pool::Pool;
pub use pool_fault::PoolFault;
pub use segment::Segment;
pub use split_data_fault::SplitDataFault;
pub use taken::{Taken, Why};
