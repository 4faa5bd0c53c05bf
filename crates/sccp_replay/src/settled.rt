//! A line of a batch that is settled.
use crate::incoming::Incoming;
use sccp_base::Octets;

/// What a line of a batch is settled to.
#[derive(Drop)]
pub enum Settled {
    /// This is printed of it.
    Prints(Octets),
    /// A message that is to be routed, with the number of its line. The last field is the number of plans that were accepted
    /// before its line.
    Routes {
        line: u32,
        incoming: Incoming,
        before: u32,
    },
}
