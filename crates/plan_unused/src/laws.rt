//! Laws of what covered titles use.
ghost use Rattle.std.specs.Prelude.{ℕ, ◌≡◌, ◌≤◌, List};
ghost use Rattle.std.specs.List.{Any};
ghost use Rattle.sccp_base.specs.declared.mark.Mark.{Mark};
ghost use Rattle.plan_model.specs.declared.spot.Spot.{Spot};
ghost use Rattle.plan_model.specs.Network.{Network};
ghost use Rattle.plan_model.specs.Routes.{route};
ghost use Rattle.plan_model.specs.Verdicts.{Safe, HasSpot};
ghost use Rattle.plan_unused.specs.Met.{IsMet};

/// If the plan is safe for some bound up to 14, what a title of a cover gets to on any route, it gets to within fourteen hops.
pub fn safe_plans_use_within_fourteen()
    ensures { (plan : Network) (bound number : ℕ) (start spot : Spot) (markings : List (List Mark)) → bound ≤ 14 → Safe plan bound
        → HasSpot plan number start → Any (λ hop. hop.spot ≡ spot) (route plan start markings) → IsMet plan number spot }
{}
