//! Why a node may have sent a message.
use crate::condition::Condition;
use crate::handling::Handling;

/// A way in which a node sends a message because of an arrival: the condition under which it does, in its shortest form, and how it
/// then handles the arrival.
#[derive(Drop)]
pub struct Explanation {
    pub condition: Condition,
    pub handling: Handling,
}
