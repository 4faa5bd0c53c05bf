//! The two plans of a mixture.
ghost use Rattle.std.specs.Prelude.{◌≡◌, ◌↔◌, IsTrue};
ghost use Rattle.plan_mixed.specs.Holdings.{chosen, may_hold, MayHold};
ghost use Rattle.plan_mixed.specs.Mixed.{held};

use plan_mixed::{Holding, Which, chosen, may_hold};
use plan_model::Plan;

/// The two plans, of which each relay holds one, and what each may hold: either, if nothing is said of it.
#[derive(Clone, Copy)]
pub(crate) struct Plans<'a> {
    pub old: &'a Plan,
    pub new: &'a Plan,
    pub may: &'a [Holding],
}

impl<'a> Plans<'a> {
    /// One of the two plans.
    pub(crate) fn held(&self, which: Which) -> &'a Plan
        ensures { result.now ≡ held self.now.old.now self.now.new.now which }
    {
        plan_mixed::held(self.old, self.new, which)
    }

    /// The plan that a relay holds if a turn asks for this one.
    pub(crate) fn chosen(&self, node: u8, which: Which) -> Which
        ensures { result ≡ chosen (may_hold self.now.may.now node) which }
    {
        chosen(self.may, node, which)
    }

    /// Whether a relay may hold this plan.
    pub(crate) fn lets(&self, node: u8, which: Which) -> bool
        ensures { IsTrue result ↔ MayHold self.now.may.now node which }
    {
        may_hold(self.may, node, which)
    }
}
