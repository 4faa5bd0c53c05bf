//! Plans that a check accepted.
ghost use Rattle.std.specs.Prelude.{◌≡◌};

use crate::longest::Longest;
use plan_model::Plan;
use std::marker::Model;

/// A plan that is safe for its bound. Within that number of hops each covered title has an allowed end or is blocked, whatever
/// the relays on its route have prohibited.
#[derive(Drop)]
pub struct Accepted {
    plan: Plan,
    bound: u8,
    longest: Longest,
}

impl Model for Accepted {
    ghost use Rattle.plan_check.specs.Verified.{Verified, verified, IsVerified};

    ghost Value = { Verified };

    ghost view = { λ a. verified a.plan a.bound a.longest };

    ghost invariant = { λ a. IsVerified (verified a.plan a.bound a.longest) };
}

impl Accepted {
    ghost use Rattle.plan_check.specs.Verified.{verified, IsVerified};

    /// What a check found.
    pub(crate) fn new(plan: Plan, bound: u8, longest: Longest) -> Accepted
        requires { IsVerified (verified plan bound longest) }
        ensures value { result ≡ verified plan bound longest }
        ensures verified { IsVerified result }
    {
        Accepted {
            plan,
            bound,
            longest,
        }
    }

    /// The plan that was checked.
    pub fn plan(&self) -> &Plan
        ensures value { result.now ≡ self.now.plan }
        ensures verified { IsVerified self.now }
    {
        &self.plan
    }

    /// The plan that was checked, without its verdict.
    pub fn into_plan(self) -> Plan
        ensures { result ≡ self.plan }
    {
        self.plan
    }

    /// The most hops that a covered title's route has, from 1 to 14.
    pub fn bound(&self) -> u8
        ensures value { result ≡ self.now.bound }
        ensures verified { IsVerified self.now }
    {
        self.bound
    }

    /// A covered title whose route has as many hops as the bound, one under each of the markings.
    pub fn longest(&self) -> &Longest
        ensures value { result.now ≡ self.now.longest }
        ensures verified { IsVerified self.now }
    {
        &self.longest
    }
}
