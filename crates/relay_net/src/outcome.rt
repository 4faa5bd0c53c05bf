//! The outcomes of what happens at a node.
use sccp_manage::Sent;
use sccp_segment::Taken;

/// An outcome of what happens at a node.
#[derive(Drop)]
pub enum Outcome {
    /// A message is to be sent.
    Sent(Sent),
    /// A segment was put into the node's pool, with this answer.
    Segment(Taken),
    /// A segment would have started a message while 64 others are under way at the node; it was given up.
    PoolFull,
}
