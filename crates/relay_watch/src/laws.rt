//! Laws of judging, over every list of events from nothing. Each call does nothing; its contract is the law.
ghost use Rattle.std.specs.Prelude.{◌≡◌, ◌<◌, ℕ, true, List, [], Some, Ok, slice_get};
ghost use Rattle.sccp_message.specs.declared.message.Message.{Message};
ghost use Rattle.sccp_message.specs.Reading.{reading};
ghost use Rattle.plan_model.specs.Network.{Network};
ghost use Rattle.relay_ways.specs.declared.explanation.Explanation.{Explanation};
ghost use Rattle.relay_watch.specs.Arrivals.{source, target};
ghost use Rattle.relay_watch.specs.Reasons.{NeverSends};
ghost use Rattle.relay_watch.specs.Runs.{AreJudged, HasVerdict, HasReason, HasArrived, GivesUp, IsUnnamed, IsUnused, NumbersDiffer};
ghost use Rattle.relay_watch.specs.Runs.{lacks_reason};
ghost use Rattle.relay_watch.specs.declared.event.Event.{Event};
ghost use Rattle.relay_watch.specs.declared.line.Line.{Line};
ghost use Rattle.relay_watch.specs.declared.verdict.Verdict.{Verdict};
ghost use Rattle.relay_watch.specs.declared.verdict.Verdict.TheVariants.{Explained};
ghost use Rattle.relay_watch.specs.declared.waiting.Waiting.{Waiting};

/// If a line explains its message, the arrival with that number came before, at the relay that sent the message. The plan has the
/// relay send the message because of that arrival exactly under the markings that meet a condition of the line's ways, and there is
/// such a marking. Under each that meets the condition of one way, the relay handles the arrival as that way says.
pub fn explained_truly()
    ensures { (plan : Network) (events : List Event) (lines : List Line) (left : List Waiting) (i by : ℕ) (e : Event)
        (ways : List Explanation)
        → AreJudged plan [] events lines left → slice_get events i ≡ Some e → HasVerdict lines i (Explained by ways)
        → HasReason plan events i e by ways }
{}

/// If no two events have the same number, no two lines explain their messages by the same arrival.
pub fn explained_once()
    ensures { (plan : Network) (events : List Event) (lines : List Line) (left : List Waiting) (i j by : ℕ) (ways others : List Explanation)
        → AreJudged plan [] events lines left → NumbersDiffer events
        → HasVerdict lines i (Explained by ways) → HasVerdict lines j (Explained by others) → i ≡ j }
{}

/// If a line says that no arrival explains the message of a relay, it is so: because of no earlier arrival at that relay, under no
/// marking, the plan lets the relay send it. Arrivals that explain an earlier message or were given up do not count.
pub fn unexplained_truly()
    ensures { (plan : Network) (events : List Event) (lines : List Line) (left : List Waiting) (i j node : ℕ) (e a : Event) (v : Verdict)
        (sent : Message) → AreJudged plan [] events lines left → HasVerdict lines i v → lacks_reason v ≡ true
        → slice_get events i ≡ Some e → source plan e ≡ Some node → reading e.octets ≡ Ok sent
        → j < i → slice_get events j ≡ Some a → target plan a ≡ Some node → IsUnnamed a.number lines i
        → NeverSends plan node a.origin a.octets e.destination sent }
{}

/// An arrival that still waits at the end, and one that is given up, is that of an event; it is due if with nothing prohibited its
/// relay sends something because of it. If no two events have the same number, no line explains a message by it.
pub fn unanswered_truly()
    ensures waits { (plan : Network) (events : List Event) (lines : List Line) (left : List Waiting) (k : ℕ) (w : Waiting)
        → AreJudged plan [] events lines left → slice_get left k ≡ Some w
        → HasArrived plan events w × (NumbersDiffer events → IsUnused w.number lines) }
    ensures given { (plan : Network) (events : List Event) (lines : List Line) (left : List Waiting) (k : ℕ) (w : Waiting)
        → AreJudged plan [] events lines left → GivesUp lines k w
        → HasArrived plan events w × (NumbersDiffer events → IsUnused w.number lines) }
{}
