//! Laws of runs. A run is a list of events that begins without sections.
ghost use Rattle.std.specs.Prelude.{◌≡◌, ℕ, ◌≤◌, [], List, All, length, Some, Contains};
ghost use Rattle.std.specs.List.{flat_map};
ghost use Rattle.sccp_couple.specs.declared.section.Section.{Section};
ghost use Rattle.sccp_couple.specs.Events.{Event, Answer, Data, data_of};
ghost use Rattle.sccp_couple.specs.Coupling.{coupled};
ghost use Rattle.sccp_couple.specs.Invariant.{IsCoupling};
ghost use Rattle.sccp_couple.specs.Runs.{after, Pair, answered, added};
ghost use Rattle.sccp_couple.specs.Laws.{IsUnheard, AreApart, IsAddressed};

/// Every step keeps the invariant of a coupling, and so does every run.
pub fn steps_keep()
    ensures step { (sections : List Section) (event : Event) → IsCoupling sections → IsCoupling (coupled sections event).sections }
    ensures run { (events : List Event) → IsCoupling (after events).sections }
{}

/// What was passed on from one side of a pair was sent to its other side: the same list of M bits and data.
pub fn all_is_sent()
    ensures forth { (events : List Event) → All (λ (p : Pair). p.sent_far ≡ p.passed_near) (after events).pairs }
    ensures back { (events : List Event) → All (λ (p : Pair). p.sent_near ≡ p.passed_far) (after events).pairs }
{}

/// The DT1 that answers an event, after any run, is what the event adds to the lists sent to the sides of all pairs. There is
/// at most one such DT1, so it goes to one side of one pair.
pub fn each_is_of_one_pair()
    ensures shared { (events : List Event) (event : Event)
        → flat_map (added (after events).sections event) (after events).pairs ≡ answered (after events).sections event }
    ensures one { (events : List Event) (event : Event) → length (answered (after events).sections event) ≤ 1 }
{}

/// An event that no established section knows is not answered by a DT1. So no DT1 follows a release.
pub fn none_is_made_up()
    ensures { (sections : List Section) (event : Event) → IsUnheard sections event → answered sections event ≡ [] }
{}

/// Each DT1 that answers an event goes to only one section, if no two sections share both point and remote reference. That
/// section is one of the pair to which the DT1 was sent.
pub fn each_goes_to_one_section()
    ensures { (events : List Event) (event : Event) (sent : Answer) (d : Data) → AreApart (after events).sections
        → Contains (coupled (after events).sections event).sent sent
        → data_of sent.message ≡ Some d → IsAddressed (after events) event sent d }
{}
