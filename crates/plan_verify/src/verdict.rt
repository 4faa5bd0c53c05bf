//! The verdict on a plan.
ghost use Rattle.std.specs.Prelude.{◌≡◌};
ghost use Rattle.plan_verify.specs.Lawful.{plan_of};

use crate::witness::Witness;
use plan_check::Accepted;
use plan_model::Plan;

/// The verdict on a plan, which it gives back.
#[derive(Drop)]
pub enum Verdict {
    /// The plan is safe for its bound, which is from 1 to 14 hops, and its longest route has as many.
    Accepted(Accepted),
    /// Some route is bad, so the plan is not safe for any bound up to 14.
    Refused(Plan, Witness),
    /// The plan reaches at least as many classes as its limit says: there is no verdict on its safety.
    TooWide(Plan),
}

impl Verdict {
    /// The plan that the verdict is on.
    pub fn into_plan(self) -> Plan
        ensures { result ≡ plan_of self }
    {
        match self {
            Verdict::Accepted(accepted) => accepted.into_plan(),
            Verdict::Refused(plan, witness) => {
                drop(witness);
                plan
            }
            Verdict::TooWide(plan) => plan,
        }
    }
}
