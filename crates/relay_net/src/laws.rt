//! The law of covered messages, over every plan and message.
ghost use Rattle.std.specs.Prelude.{ℕ, ◌≤◌, List};
ghost use Rattle.sccp_base.specs.declared.mark.Mark.{Mark};
ghost use Rattle.sccp_message.specs.declared.message.Message.{Message};
ghost use Rattle.sccp_address.proofs.Kept.{AreOctets};
ghost use Rattle.plan_model.specs.declared.spot.Spot.{Spot};
ghost use Rattle.plan_model.specs.Network.{Network, IsPlan};
ghost use Rattle.plan_model.specs.Verdicts.{Safe};
ghost use Rattle.relay_net.specs.Journeys.{journey};
ghost use Rattle.relay_net.specs.Headline.{IsCoveredMessage, GoesWell};

/// Under a plan that is safe for a bound up to 14, a covered message goes well, whatever its relays have marked.
pub fn covered_messages_go_well()
    ensures { (plan : Network) (bound : ℕ) (states : List (List Mark)) (entry : ℕ) (origin : ℕ) (b : List ℕ) (m : Message) (s : Spot) →
        IsPlan plan → bound ≤ 14 → Safe plan bound → AreOctets b → IsCoveredMessage plan bound entry b m s →
        GoesWell plan states bound m s (journey plan states entry origin b).path (journey plan states entry origin b).end }
{}
