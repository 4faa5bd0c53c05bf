//! One record of a message that an end was handed.
use crate::note::Note;
use sccp_base::PointCode;

/// What an end was handed, and by which relay.
#[derive(Drop)]
pub struct Handed {
    /// The relay's point.
    pub from: PointCode,
    /// The end's point.
    pub to: PointCode,
    /// What the end keeps of the message.
    pub note: Note,
}
