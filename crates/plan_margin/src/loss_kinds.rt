//! What is counted as a loss.
ghost use Rattle.std.specs.Prelude.{◌≡◌};
ghost use Rattle.plan_margin.specs.Outages.{is_loss, is_own_subsystem};

use plan_model::Plan;
use sccp_base::{Mark, PointCode};

/// What an outage may take away, each of which is one loss.
#[derive(Clone, Copy)]
pub enum LossKinds {
    /// Signalling points.
    Points,
    /// Signalling points, and the subsystems that the relays of the plan have themselves.
    PointsAndSubsystems,
}

impl LossKinds {
    /// Whether the loss of what this mark prohibits counts. That of the SCCP at a point does not: the loss of the point does as much.
    pub(crate) fn counts(self, plan: &Plan, mark: &Mark) -> bool
        ensures { result ≡ is_loss plan.now self mark.now }
    {
        match mark {
            Mark::PointCode(_) => true,
            Mark::Sccp(_) => false,
            Mark::Subsystem(pc, ssn) => match self {
                LossKinds::Points => false,
                LossKinds::PointsAndSubsystems => is_own_subsystem(plan, *pc, *ssn),
            },
        }
    }
}

/// Whether a relay of the plan has this point, and this subsystem of its own.
fn is_own_subsystem(plan: &Plan, pc: PointCode, ssn: u8) -> bool
    ensures { result ≡ is_own_subsystem plan.now pc ssn }
{
    let nodes = plan.nodes().as_slice();
    nodes
        .iter()
        .any(|node| node.pc == pc && node.is_equipped(ssn))
}
