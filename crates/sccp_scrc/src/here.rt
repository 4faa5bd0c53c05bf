//! Where a message arrives.
ghost use Rattle.std.specs.Prelude.{◌<◌, length};

use plan_model::Plan;
use sccp_base::{Marking, PointCode};

/// What a message finds that arrives from the point `origin`: the node at this place of the plan, which holds the marking.
#[derive(Drop)]
pub struct Here<'a> {
    pub plan: &'a Plan,
    pub node: u8,
    pub marking: &'a Marking,
    pub origin: PointCode,
    ghost inside: { node < length plan.now.nodes },
}
