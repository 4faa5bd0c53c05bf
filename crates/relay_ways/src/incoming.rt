//! What a node of a plan receives.
ghost use Rattle.std.specs.Prelude.{◌<◌, length};

use plan_model::Plan;
use sccp_base::PointCode;

/// Octets that arrive from a point at the node at this place of a plan.
#[derive(Drop)]
pub struct Incoming<'a> {
    pub plan: &'a Plan,
    pub node: u8,
    pub origin: PointCode,
    pub octets: &'a [u8],
    ghost inside: { node < length plan.now.nodes },
}
