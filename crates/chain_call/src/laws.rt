//! Laws on connections with nothing before them. Each call does nothing; its contract is the law.
ghost use Rattle.std.specs.Prelude.{ℕ, ◌≤◌, ◌^◌, [], length};
ghost use Rattle.plan_model.specs.Covered.{Covered};
ghost use Rattle.plan_model.specs.Network.{Network, IsPlan};
ghost use Rattle.plan_model.specs.Verdicts.{Safe};
ghost use Rattle.chain_world.specs.Kept.{kept};
ghost use Rattle.chain_call.specs.declared.call.Call.{Call as CallOf};
ghost use Rattle.chain_call.specs.Answered.{IsCall, IsAnswered, AllowsEnds, ReachesPlace, spot_called};
ghost use Rattle.chain_call.specs.Course.{beginning};
ghost use Rattle.chain_call.specs.Steps.{outcome};

/// A connection in a new world is refused or opened, whatever the plan. If it is opened, all octets go forth and back, and no
/// section is left after the release. More octets than the law speaks of would need more deliveries than a run can make.
pub fn connections_are_answered()
    ensures { (plan : Network) (call : CallOf) → IsCall plan call → length call.octets ≤ 2 ^ 56
        → IsAnswered call.octets (outcome call (beginning (kept plan []))) }
{}

/// If a plan is safe for a bound up to 14, a connection for a title that it covers is opened, over at most that number of relays, to a
/// point that the plan allows for the title. No place that the plan allows for it may be at a relay, since relays end no connection.
pub fn covered_connections_are_opened()
    ensures { (plan : Network) (call : CallOf) (bound : ℕ) → IsPlan plan → Safe plan bound → bound ≤ 14 → IsCall plan call
        → Covered plan (spot_called plan call) → AllowsEnds plan (spot_called plan call)
        → ReachesPlace plan (spot_called plan call) bound (outcome call (beginning (kept plan []))) }
{}
