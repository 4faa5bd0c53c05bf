//! The arrivals that wait no more.
use crate::waiting::Waiting;

/// The arrival that explains a message, or the one that is given up since too many others wait.
#[derive(Drop)]
pub(crate) struct Gone {
    pub found: Option<Waiting>,
    pub given_up: Option<Waiting>,
}
