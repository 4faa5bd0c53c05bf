//! Laws of needless covers.
ghost use Rattle.std.specs.Prelude.{ℕ, ◌↔◌, List};
ghost use Rattle.plan_model.specs.declared.cover.Cover.{Cover};
ghost use Rattle.plan_model.specs.declared.node.Node.{Node};
ghost use Rattle.plan_model.specs.declared.spot.Spot.{Spot};
ghost use Rattle.plan_model.specs.Network.{Network, IsCover};
ghost use Rattle.plan_model.specs.Covered.{Covers};
ghost use Rattle.plan_model.specs.Verdicts.{Safe};
ghost use Rattle.plan_covers.specs.declared.needless.Needless.{Needless};
ghost use Rattle.plan_covers.specs.Needless.{IsWithin, AreNeedless};
ghost use Rattle.plan_covers.specs.Remaining.{remaining};

/// A sound cover is within another one exactly if each of its titles is one of the other's.
pub fn titles_are_within()
    ensures { (nodes : List Node) (a b : Cover) → IsCover nodes a → IsCover nodes b
        → IsWithin a b ↔ ((spot : Spot) → Covers a spot → Covers b spot) }
{}

/// A plan without all its needless covers is safe for exactly the same bounds.
pub fn without_needless()
    ensures { (plan : Network) (found : List Needless) (bound : ℕ) → AreNeedless plan.covers found
        → Safe plan bound ↔ Safe (remaining plan found) bound }
{}
