//! Long messages over links that carry only short ones (Q.714 section 4.1). A long unitdata message (LUDT) is sent on in
//! segments, each of them an extended unitdata message (XUDT).
//!
//! The layer above may rely on this. `send_on` answers the octets of each segment, in order, or the first cause why it
//! cannot. The segments together have the data of the long message, so a pool that takes them answers that data.
#![tactic(auto)]

mod laws;
mod long_fault;
mod sending;

pub use laws::{a_pool_answers_the_data, segments_carry_the_data};
pub use long_fault::LongFault;
pub use sending::send_on;
