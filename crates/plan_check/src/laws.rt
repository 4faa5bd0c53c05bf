//! What ranks show of a plan.
ghost use Rattle.std.specs.Prelude.{ℕ, Option};
ghost use Rattle.plan_model.specs.Network.{Network, IsPlan};
ghost use Rattle.plan_model.specs.Verdicts.{Safe};
ghost use Rattle.plan_classes.specs.Titles.{Titles};
ghost use Rattle.plan_check.specs.Ranked.{IsRanked, StartsBelow};

/// A plan whose classes are ranked, whatever gives the ranks, is safe for a bound on the ranks of the starts.
pub fn ranked_plans_are_safe()
    ensures { (plan : Network) (rank : Titles → Option ℕ) (bound : ℕ) → IsPlan plan → IsRanked plan rank → StartsBelow plan rank bound
        → Safe plan bound }
{}
