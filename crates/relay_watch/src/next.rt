//! The marking under which a relay sends an explained message.
use relay_ways::Condition;

/// Whether another marking begins with an explained message, and the condition of the last marking afterwards.
#[derive(Drop)]
pub(crate) struct Next {
    pub begins: bool,
    pub so_far: Condition,
}
