//! What a thing that a capture has is counted as.

/// What a thing that a capture has is counted as.
#[derive(Clone, Copy)]
pub enum Kind {
    /// A message for a relay of the plan.
    Message,
    /// A message that no line of a trace can have, or that is for no relay of the plan.
    Left,
    /// A chunk that repeats another.
    Repeated,
    /// What is of another protocol.
    Other,
    /// What cannot be read.
    Fault,
    /// A chunk that waits for others of its user message. It is counted with the last of them.
    Waiting,
}
