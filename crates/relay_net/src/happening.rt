//! What can happen at a node.
use sccp_base::PointCode;
use sccp_manage::Event;
use sccp_message::Message;

/// What happens at a node.
#[derive(Drop)]
pub enum Happening {
    /// An event at its management (Q.714 section 5).
    Managed(Event),
    /// A connection-oriented message arrived from a point (Q.714 section 3).
    Connected { origin: PointCode, message: Message },
    /// A connectionless message is for a subsystem of the node (Q.714 section 4).
    Delivered { message: Message },
}
