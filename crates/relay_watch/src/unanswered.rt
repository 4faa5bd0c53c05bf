//! Arrivals that nothing answered.

/// An arrival because of which its relay sends something with nothing prohibited, and did not: no message is explained by it, and
/// none is unexplained by it. It has the number of its event and the place of its relay in the plan.
#[derive(Clone, Copy)]
pub struct Unanswered {
    pub number: u64,
    pub node: u8,
}
