//! What the verdicts say of a plan.
ghost use Rattle.std.specs.Prelude.{ℕ, ◌<◌, ◌≤◌, ◌↔◌, List, length};
ghost use Rattle.std.specs.List.{All, Any};
ghost use Rattle.sccp_base.specs.declared.mark.Mark.{Mark};
ghost use Rattle.plan_model.specs.declared.spot.Spot.{Spot};
ghost use Rattle.plan_model.specs.Network.{Network};
ghost use Rattle.plan_model.specs.Verdicts.{Safe, Tight};
ghost use Rattle.plan_classes.specs.Classes.{ReachesAtLeast};
ghost use Rattle.plan_verify.specs.declared.verdict.Verdict.{Verdict};
ghost use Rattle.plan_verify.specs.Covers.{AreVerdictsOn, IsRefused, greatest_bound};
ghost use Rattle.plan_verify.specs.Lawful.{IsLawful, AcceptsBelowLimit, IsAccepted, IsSafeFor};

/// If fewer classes are reached than the limit of the plan, the lawful verdict is `Accepted` exactly if the plan is safe for some
/// bound from 1 to 14. Otherwise it is `Refused`. Whatever is reached, a verdict of `verify` is `Accepted` exactly if the plan is
/// safe for some such bound and fewer classes are reached than its limit.
pub fn verdicts_are_exact()
    ensures below { (plan : Network) (verdict : Verdict) → IsLawful plan verdict → (ReachesAtLeast plan plan.limits.classes → ⊥)
        → (IsAccepted verdict ↔ (bound : ℕ) × IsSafeFor plan bound) }
    ensures accepted { (plan : Network) (verdict : Verdict) → IsLawful plan verdict → AcceptsBelowLimit plan verdict
        → (IsAccepted verdict ↔ ((bound : ℕ) × IsSafeFor plan bound) × (ReachesAtLeast plan plan.limits.classes → ⊥)) }
{}

/// Lawful verdicts on the covers of a plan, each by itself, decide on the plan. If all are accepted, it is safe for the greatest
/// of their bounds, which one of its routes reaches. If one is refused, it is safe for no bound up to 14.
pub fn covers_are_exact()
    ensures accepted { (plan : Network) (verdicts : List Verdict) → AreVerdictsOn plan plan.covers verdicts → 0 < length plan.covers
        → All IsAccepted verdicts → IsSafeFor plan (greatest_bound verdicts)
        × ((spot : Spot) × (markings : List (List Mark)) × Tight plan (greatest_bound verdicts) spot markings) }
    ensures refused { (plan : Network) (verdicts : List Verdict) → AreVerdictsOn plan plan.covers verdicts → Any IsRefused verdicts
        → (bound : ℕ) → bound ≤ 14 → Safe plan bound → ⊥ }
{}
