//! The events of a world.
use sccp_base::PointCode;
use sccp_message::Message;

/// What happens in a world: an end puts a message on its link to a relay, or a link delivers its oldest message.
#[derive(Drop)]
pub enum Happening {
    /// An end offers a message to a relay.
    Offers {
        from: PointCode,
        to: PointCode,
        message: Message,
    },
    /// The link between these points delivers its oldest message.
    Delivers {
        from: PointCode,
        to: PointCode,
    },
}
