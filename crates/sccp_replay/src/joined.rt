//! A line of a trace that joined a batch.
use crate::incoming::Incoming;
use sccp_base::Octets;
use trace_text::Numbered;

/// What a line is to the batch that it joins.
#[derive(Drop)]
pub enum Joining {
    /// A message that is to be routed.
    Routed(Incoming),
    /// A later plan, in the file of this name.
    Later(Octets),
    /// It is only printed.
    Aside,
}

/// A line that joined a batch, and as what it joined.
#[derive(Drop)]
pub struct Joined {
    pub line: Numbered,
    pub joining: Joining,
}
