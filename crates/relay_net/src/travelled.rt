//! The journey of a message.
use crate::back::Back;
use crate::end::End;
use sccp_base::{Boxed, List};

/// The nodes at which a message arrives, in order, with its end at the last of them and, if it is returned, the service
/// message.
#[derive(Drop)]
pub struct Journey {
    pub path: List<u8>,
    pub end: End,
    pub back: Option<Boxed<Back>>,
}
