//! What is said of a message before anything changes.
use crate::verdict::Verdict;
use crate::waiting::Waiting;

/// The verdict, the place of the arrival that explains the message, the arrival that begins to wait, and whether the message is one
/// that is not judged where it arrives.
#[derive(Drop)]
pub(crate) struct Judged {
    pub verdict: Verdict,
    pub place: Option<usize>,
    pub begins: Option<Waiting>,
    pub other: bool,
}
