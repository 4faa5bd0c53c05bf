//! What is said of a captured message.
use crate::unanswered::Unanswered;
use crate::verdict::Verdict;
use crate::waiting::Waiting;

/// The verdict on a message, and the arrival that is given up since too many others wait. `unanswered` says of that arrival that
/// nothing answered it.
#[derive(Drop)]
pub struct Line {
    pub verdict: Verdict,
    pub given_up: Option<Waiting>,
    pub unanswered: Option<Unanswered>,
}
