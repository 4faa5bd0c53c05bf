//! Laws of the worlds that a list of offers and deliveries leads to.
ghost use Rattle.std.specs.Prelude.{◌≡◌, ◌↔◌, ℕ, true, false, List, Some, Ok};
ghost use Rattle.std.specs.List.{AllByRecursion};
ghost use Rattle.sccp_base.specs.declared.mark.Mark.{Mark};
ghost use Rattle.sccp_message.specs.declared.message.Message.{Message};
ghost use Rattle.sccp_message.specs.Reading.{reading};
ghost use Rattle.sccp_message.specs.Written.{message_octets};
ghost use Rattle.plan_model.specs.Network.{Network as PlanNetwork, IsPlan};
ghost use Rattle.sccp_couple.specs.declared.section.Section.{Section};
ghost use Rattle.sccp_couple.specs.Coupling.{coupled};
ghost use Rattle.sccp_couple.specs.Ways.{event_of};
ghost use Rattle.sccp_couple.specs.Events.{Event, Answer};
ghost use Rattle.sccp_couple.specs.Runs as coupling;
ghost use Rattle.couple_chain.specs.World.{Network, is_node, Happening, World, after};
ghost use Rattle.couple_chain.specs.Line.{Line, line, IsFresh, is_fresh, IsSettled, IsInOrder, IsThrough, HasNear, given};
ghost use Rattle.couple_chain.specs.Fit.{IsFit};
ghost use Rattle.couple_chain.specs.Logged.{IsLogged};
ghost use Rattle.couple_chain.specs.Relays.{first_relay, relay_run};

/// If no relay gave one own reference twice, what came out at either end of a line is the beginning of what went in at the
/// other. If also no link holds a message, it is the whole.
pub fn lines_keep_order()
    ensures order { (network : Network) (history : List Happening) (point reference : ℕ) (l : Line)
        → IsFresh network (after network history) → line network (after network history) point reference ≡ Some l → IsInOrder l }
    ensures all { (network : Network) (history : List Happening) (point reference : ℕ) (l : Line) → IsFresh network (after network history)
        → IsSettled (after network history) → line network (after network history) point reference ≡ Some l → IsThrough l }
{}

/// Of all relays, at most one near section has a given end's point and reference. So the first pair of a line is unique.
pub fn lines_start_at_one_section()
    ensures node { (network : Network) (history : List Happening) (point reference one other own with_own : ℕ)
        → is_node network point ≡ false → HasNear (after network history) one point reference own
        → HasNear (after network history) other point reference with_own → one ≡ other }
    ensures section { (network : Network) (history : List Happening) (point reference node own with_own : ℕ)
        → HasNear (after network history) node point reference own → HasNear (after network history) node point reference with_own
        → own ≡ with_own }
{}

/// The test of freshness is exact: a world is fresh if no relay gave one own reference to two sections.
pub fn fresh_is_tested()
    ensures { (network : Network) (w : World) → (is_fresh network w ≡ true) ↔ IsFresh network w }
{}

/// What a relay notes is what the ledger of its pairs says, after every list of messages. It notes the data that both
/// sections of each existing pair passed on, and each own reference as often as it was given.
pub fn relays_note_what_passed()
    ensures sections { (node : ℕ) (events : List Event) → (relay_run (first_relay node) events).sections
        ≡ (coupling.after events).sections }
    ensures passed { (node : ℕ) (events : List Event)
        → IsLogged (coupling.after events).pairs (relay_run (first_relay node) events).passed }
    ensures given { (node : ℕ) (events : List Event) → (relay_run (first_relay node) events).given ≡ given (coupling.after events) }
{}

/// A relay of a plan answers a message that can be handled by messages that read as what they are. The next relay can handle
/// these.
pub fn what_is_sent_can_be_handled()
    ensures fit { (plan : PlanNetwork) (node : ℕ) (marking : List Mark) (sections : List Section) (origin : ℕ) (message : Message)
        → IsPlan plan → IsFit message → AllByRecursion (λ (a : Answer). IsFit a.message)
        (coupled sections (event_of plan node marking origin message)).sent }
    ensures reads { (plan : PlanNetwork) (node : ℕ) (marking : List Mark) (sections : List Section) (origin : ℕ) (message : Message)
        → IsPlan plan → IsFit message → AllByRecursion (λ (a : Answer). reading (message_octets a.message) ≡ Ok a.message)
        (coupled sections (event_of plan node marking origin message)).sent }
{}
