//! The result of one delivery of a link.
use sccp_message::Message;

/// What a delivery of a link did.
#[derive(Drop)]
pub enum Delivered {
    /// The link holds no message.
    Nothing,
    /// A relay took the message, and what it answered is on its links.
    Handled,
    /// The link leads to an end, which is handed this message.
    Out(Message),
}
