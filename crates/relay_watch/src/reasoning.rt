//! The law of the reasons that lines give, over every list of events from nothing. The call does nothing; its contract is the law.
ghost use Rattle.std.specs.Prelude.{◌≡◌, ℕ, List, Some, slice_get};
ghost use Rattle.plan_model.specs.Network.{Network};
ghost use Rattle.relay_ways.specs.declared.reason.Reason.{Reason};
ghost use Rattle.relay_watch.specs.Kept.{Kept, nothing_kept};
ghost use Rattle.relay_watch.specs.Runs.{HasVerdict, NumbersDiffer};
ghost use Rattle.relay_watch.specs.Watching.{AreWatched};
ghost use Rattle.relay_watch.specs.WhyRuns.{HasNearest, HasNone, WasAnswered};
ghost use Rattle.relay_watch.specs.declared.event.Event.{Event};
ghost use Rattle.relay_watch.specs.declared.line.Line.{Line};
ghost use Rattle.relay_watch.specs.declared.verdict.Verdict.TheVariants.{Unexplained};
ghost use Rattle.relay_watch.specs.declared.why.Why.TheVariants.{By, Again, NoArrival};

/// If a line says why the message of a relay is unexplained, it is so. Let no two events have the same number. The arrivals that wait
/// before the message are those of earlier events that no earlier line names.
///
/// If the line gives an arrival and a reason, the arrival waits there at that relay and has the message's data, and the reason is the
/// first test that the message fails, of those on what the plan would have the relay send because of the arrival. Of the other arrivals
/// that wait there and have the data none passes more tests, and no earlier one as many.
///
/// Else no arrival that waits there has the data. If the line gives another message, this one is explained by an arrival because of which
/// the plan has the relay send the unexplained message too, under some marking.
pub fn reasoned_truly()
    ensures nearest { (plan : Network) (events : List Event) (lines : List Line) (left : Kept) (i number : ℕ) (reason : Reason) (e : Event)
        → AreWatched plan (nothing_kept plan) events lines left → NumbersDiffer events → slice_get events i ≡ Some e
        → HasVerdict lines i (Unexplained (By number reason)) → HasNearest plan events lines i e number reason }
    ensures again { (plan : Network) (events : List Event) (lines : List Line) (left : Kept) (i number : ℕ) (e : Event)
        → AreWatched plan (nothing_kept plan) events lines left → NumbersDiffer events → slice_get events i ≡ Some e
        → HasVerdict lines i (Unexplained (Again number))
        → HasNone plan events lines i e × WasAnswered plan events lines i e number }
    ensures none { (plan : Network) (events : List Event) (lines : List Line) (left : Kept) (i : ℕ) (e : Event)
        → AreWatched plan (nothing_kept plan) events lines left → NumbersDiffer events → slice_get events i ≡ Some e
        → HasVerdict lines i (Unexplained NoArrival) → HasNone plan events lines i e }
{}
