//! The relays of a plan by their point codes.
ghost use Rattle.std.specs.Prelude.{◌≡◌, ◌<◌, length, IfSome};
ghost use Rattle.std.specs.List.{position};
ghost use Rattle.plan_model.specs.Network.{has_point};

use plan_model::Plan;
use sccp_base::PointCode;

/// The place of the relay with a point code, if there is one.
pub(crate) fn relay_at(plan: &Plan, pc: PointCode) -> Option<u8>
    ensures value { result ≡ position (has_point pc) plan.now.nodes }
    ensures within { IfSome result (λ node. node < length plan.now.nodes) }
{
    plan.node_at(pc)
}
