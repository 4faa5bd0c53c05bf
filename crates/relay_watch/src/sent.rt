//! The messages that relays send.
ghost use Rattle.std.specs.Prelude.{◌<◌, length};

use plan_model::Plan;
use sccp_base::PointCode;
use sccp_message::Message;

/// A message that the relay at this place of a plan sent to a point.
#[derive(Drop)]
pub(crate) struct Sent<'a> {
    pub plan: &'a Plan,
    pub node: u8,
    pub to: PointCode,
    pub message: &'a Message,
    ghost inside: { node < length plan.now.nodes },
}
