//! The number of nodes of a plan.
ghost use Rattle.std.specs.Prelude.{◌≡◌};
ghost use Rattle.live_plan.specs.Plans.{nodes_of};

use plan_check::Accepted;

/// The number of nodes of an accepted plan, at most 64.
pub(crate) fn count_nodes(accepted: &Accepted) -> u8
    ensures { result ≡ nodes_of accepted.now }
{
    accepted.plan().nodes().as_slice().len() as u8
}
