//! Laws of routes and covers.
ghost use Rattle.std.specs.Prelude.{ℕ, ◌≡◌, ◌≤◌, ◌↔◌, List, Some, slice_get};
ghost use Rattle.std.specs.List.{All};
ghost use Rattle.sccp_base.specs.declared.mark.Mark.{Mark};
ghost use Rattle.plan_model.specs.declared.cover.Cover.{Cover};
ghost use Rattle.plan_model.specs.declared.spot.Spot.{Spot};
ghost use Rattle.plan_model.specs.declared.hop.Hop.{Hop};
ghost use Rattle.plan_model.specs.declared.kind.Kind.{Kind};
ghost use Rattle.plan_model.specs.Network.{Network};
ghost use Rattle.plan_model.specs.Alone.{alone};
ghost use Rattle.plan_model.specs.Verdicts.{Safe, Tight, Bad};

/// No plan that is safe for some bound up to 14 has a bad route.
pub fn safe_plans_have_no_bad_route()
    ensures { (plan : Network) (bound : ℕ) (cover : ℕ) (spot : Spot) (markings : List (List Mark)) (hops : List Hop) (kind : Kind)
        → bound ≤ 14 → Safe plan bound → Bad plan cover spot markings hops kind → ⊥ }
{}

/// A plan is safe for a bound exactly if it is with each of its covers alone.
pub fn safe_by_covers()
    ensures { (plan : Network) (bound : ℕ) → Safe plan bound ↔ All (λ cover. Safe (alone plan cover) bound) plan.covers }
{}

/// A plan that is safe for a bound is safe for each greater one.
pub fn safe_for_more()
    ensures { (plan : Network) (bound more : ℕ) → Safe plan bound → bound ≤ more → Safe plan more }
{}

/// The bad routes of a plan with one cover alone are those of the plan under the number of that cover. A route that reaches a
/// bound with one cover alone reaches it in the plan.
pub fn bad_by_covers()
    ensures bad { (plan : Network) (number : ℕ) (cover : Cover) (spot : Spot) (markings : List (List Mark)) (hops : List Hop)
        (kind : Kind) → slice_get plan.covers number ≡ Some cover
        → Bad plan number spot markings hops kind ↔ Bad (alone plan cover) 0 spot markings hops kind }
    ensures tight { (plan : Network) (number : ℕ) (cover : Cover) (bound : ℕ) (spot : Spot) (markings : List (List Mark))
        → slice_get plan.covers number ≡ Some cover → Tight (alone plan cover) bound spot markings → Tight plan bound spot markings }
{}
