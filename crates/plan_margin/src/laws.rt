//! Laws of margins and outages.
ghost use Rattle.std.specs.Prelude.{◌≡◌, ◌⊎◌, ◌<◌, ◌≤◌, ℕ, List, length, IsSomeAnd};
ghost use Rattle.std.specs.List.{All};
ghost use Rattle.sccp_base.specs.declared.mark.Mark.{Mark};
ghost use Rattle.plan_model.specs.declared.spot.Spot.{Spot};
ghost use Rattle.plan_model.specs.Network.{Network, IsPlan};
ghost use Rattle.plan_model.specs.Steps.{step};
ghost use Rattle.plan_model.specs.Verdicts.{last, HasSpot, Safe};
ghost use Rattle.plan_margin.specs.declared.loss_kinds.LossKinds.{LossKinds};
ghost use Rattle.plan_margin.specs.declared.loss_kinds.LossKinds.TheVariants.{Points, PointsAndSubsystems};
ghost use Rattle.plan_margin.specs.declared.stop.Stop.{Stop};
ghost use Rattle.plan_margin.specs.declared.margin.Margin.TheVariants.{Stopped, Survives, SurvivesAny};
ghost use Rattle.plan_margin.specs.Outages.{IsPointMark, Outage, SurvivesBelow, SurvivesAll};
ghost use Rattle.plan_margin.specs.Outages.{Arrives, route_in, IsUp, IsBlocked, with_sccp};
ghost use Rattle.plan_margin.specs.Margins.{IsMargin};

/// A cover has one margin of each kind. Two numbers of losses that stop a title, of which no fewer do, are the same. A number of
/// losses that the cover survives is below that number, and there is none that stops a title if it survives any.
pub fn margins_are_one()
    ensures number { (plan : Network) (kinds : LossKinds) (number losses others : ℕ) (a b : Stop)
        (x : IsMargin plan kinds number losses (Stopped a)) (y : IsMargin plan kinds number others (Stopped b)) → x.0 ≡ y.0 }
    ensures survives { (plan : Network) (kinds : LossKinds) (number losses others : ℕ) (a : Stop)
        (x : IsMargin plan kinds number losses (Stopped a)) → IsMargin plan kinds number others Survives → others < x.0 }
    ensures any { (plan : Network) (kinds : LossKinds) (number losses others : ℕ) (a : Stop)
        → IsMargin plan kinds number losses (Stopped a) → IsMargin plan kinds number others SurvivesAny → ⊥ }
{}

/// If subsystems count as well, a cover survives no more. What survives any losses of both kinds survives any loss of points, and
/// outages of points by themselves are those that only hold their marks.
pub fn subsystems_add_losses()
    ensures below { (plan : Network) (number count : ℕ) → SurvivesBelow plan PointsAndSubsystems number count
        → SurvivesBelow plan Points number count }
    ensures any { (plan : Network) (number : ℕ) → SurvivesAll plan PointsAndSubsystems number → SurvivesAll plan Points number }
    ensures points { (plan : Network) (number : ℕ) (marks : List Mark) → Outage plan Points number marks → All IsPointMark marks }
{}

/// In a safe plan, a title that an outage stops is blocked: all targets at its last relay are closed. It has no more hops than the
/// bound of the plan.
pub fn stopped_titles_are_blocked()
    ensures ends { (plan : Network) (bound number : ℕ) (spot : Spot) (marks : List Mark) → Safe plan bound → bound ≤ 14
        → HasSpot plan number spot → Arrives plan number marks spot ⊎ IsSomeAnd (last (route_in plan marks spot)) IsBlocked }
    ensures hops { (plan : Network) (bound number : ℕ) (spot : Spot) (marks : List Mark) → Safe plan bound → bound ≤ 14
        → HasSpot plan number spot → length (route_in plan marks spot) ≤ bound }
{}

/// No title is sent to a lost relay: if the first relay of a route is not lost, none is.
pub fn no_hop_is_at_a_lost_relay()
    ensures { (plan : Network) (marks : List Mark) (spot : Spot) → IsPlan plan → IsUp plan marks spot.node
        → All (λ hop. IsUp plan marks hop.spot.node) (route_in plan marks spot) }
{}

/// With the marks of lost points, the marks of the SCCP at these points change nothing.
pub fn sccp_marks_add_nothing()
    ensures { (plan : Network) (spot : Spot) (marks : List Mark) → All IsPointMark marks
        → step plan spot (with_sccp marks) ≡ step plan spot marks }
{}
