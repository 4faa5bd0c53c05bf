//! Laws of what is said at the end, over every list of events from nothing. Each call does nothing; its contract is the law.
ghost use Rattle.std.specs.Prelude.{◌≡◌, ◌<◌, ◌≤◌, ◌+◌, ◌-◌, ◌^◌, ℕ, List, length, Some, slice_get};
ghost use Rattle.plan_model.specs.declared.node.Node.{Node};
ghost use Rattle.plan_model.specs.Network.{Network};
ghost use Rattle.relay_ways.specs.Markings.{AreParts};
ghost use Rattle.relay_ways.specs.declared.condition.Condition.{Condition};
ghost use Rattle.relay_watch.specs.Kept.{Kept, nothing_kept, summary_of, is_unexplained};
ghost use Rattle.relay_watch.specs.Least.{told_conditions};
ghost use Rattle.relay_watch.specs.Totals.{how_many, stopped, AreCounts, AreTaken};
ghost use Rattle.relay_watch.specs.Watching.{AreWatched};
ghost use Rattle.relay_watch.specs.declared.event.Event.{Event};
ghost use Rattle.relay_watch.specs.declared.line.Line.{Line};
ghost use Rattle.relay_watch.specs.declared.tally.Tally.{Tally};

/// The markings of a relay are the least number, one after the other, under which it sends its explained messages, each by the
/// first way of its line. Whoever cuts the conditions of these ways, in the order of the messages, into parts each of which one
/// marking meets, has no fewer parts. There is such a cut with as many parts as are counted, but a count stops at 2^64 - 1.
pub fn markings_are_least()
    ensures least { (plan : Network) (events : List Event) (lines : List Line) (left : Kept) (node : ℕ) (t : Tally)
        (parts : List (List Condition))
        → AreWatched plan (nothing_kept plan) events lines left → slice_get (summary_of left).relays node ≡ Some t
        → AreParts (told_conditions plan node events lines) parts → t.counts.markings ≤ length parts }
    ensures reached { (plan : Network) (events : List Event) (lines : List Line) (left : Kept) (node : ℕ) (t : Tally)
        → AreWatched plan (nothing_kept plan) events lines left → slice_get (summary_of left).relays node ≡ Some t
        → (parts : List (List Condition)) × AreParts (told_conditions plan node events lines) parts
        × (t.counts.markings ≡ stopped (length parts)) }
{
    relay_ways::markings_are_least();
}

/// The counts are those of the lines: of each relay, of each target of its table, and of all messages. A count stops at 2^64 - 1.
/// Before that, the count of what a relay sent is the sum of the plain, the failing and the unexplained messages.
pub fn counted_truly()
    ensures each { (plan : Network) (events : List Event) (lines : List Line) (left : Kept) (node : ℕ) (t : Tally)
        → AreWatched plan (nothing_kept plan) events lines left → slice_get (summary_of left).relays node ≡ Some t
        → AreCounts plan node events lines (summary_of left).unanswered t.counts }
    ensures targets { (plan : Network) (events : List Event) (lines : List Line) (left : Kept) (node : ℕ) (relay : Node) (t : Tally)
        → AreWatched plan (nothing_kept plan) events lines left → slice_get plan.nodes node ≡ Some relay
        → slice_get (summary_of left).relays node ≡ Some t → AreTaken plan node relay.table events lines t.taken }
    ensures sum { (plan : Network) (events : List Event) (lines : List Line) (left : Kept) (node : ℕ) (t : Tally)
        → AreWatched plan (nothing_kept plan) events lines left → slice_get (summary_of left).relays node ≡ Some t
        → t.counts.sent < 2 ^ 64 - 1 → t.counts.sent ≡ t.counts.plain + t.counts.failing + t.counts.unexplained }
    ensures all { (plan : Network) (events : List Event) (lines : List Line) (left : Kept)
        → AreWatched plan (nothing_kept plan) events lines left
        → (length (summary_of left).relays ≡ length plan.nodes)
        × ((summary_of left).events ≡ stopped (length events))
        × ((summary_of left).unexplained ≡ stopped (how_many (λ e line. is_unexplained line.verdict) events lines)) }
{}
