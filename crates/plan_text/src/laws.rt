//! A law of the texts of plans.
ghost use Rattle.std.specs.Prelude.{ℕ, ◌≡◌, List, Ok};
ghost use Rattle.plan_model.specs.Network.{Network};
ghost use Rattle.plan_model.specs.declared.limits.Limits.{Limits};
ghost use Rattle.plan_text.specs.PlanText.{plan_within};

/// A plan has the limits under which its text was read.
pub fn plans_keep_their_limits()
    ensures { (limits : Limits) (text : List ℕ) (plan : Network) → plan_within limits text ≡ Ok plan → plan.limits ≡ limits }
{}
