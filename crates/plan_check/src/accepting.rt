//! The acceptance of a plan that is shown to be safe.
ghost use Rattle.std.specs.Prelude.{◌≡◌, ◌≤◌};
ghost use Rattle.plan_model.specs.Network.{IsPlan};
ghost use Rattle.plan_model.specs.Verdicts.{Safe, Tight};
ghost use Rattle.plan_check.specs.Verified.{verified, IsVerified};

use crate::accepted::Accepted;
use crate::longest::Longest;
use plan_model::Plan;
use sccp_base::Marking;

/// Accepts a plan that is safe for a bound from 1 to 14, if the longest route has as many hops. The caller has shown both, so
/// nothing is computed.
pub fn accept(plan: Plan, bound: u8, longest: Longest) -> Accepted
    requires plan { IsPlan plan }
    requires some { 1 ≤ bound }
    requires few { bound ≤ 14 }
    requires safe { Safe plan bound }
    requires tight { Tight plan bound longest.spot longest.markings }
    ensures value { result ≡ verified plan bound longest }
    ensures verified { IsVerified result }
{
    Marking::vouch(longest.markings.as_slice());
    Accepted::new(plan, bound, longest)
}
