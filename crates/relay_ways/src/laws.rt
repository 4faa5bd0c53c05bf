//! Laws on the definitions. Each call does nothing; its contract is the law.
ghost use Rattle.std.specs.Prelude.{◌≡◌, ◌≤◌, ℕ, List, length, true};
ghost use Rattle.std.specs.List.{All, AllByRecursion, list_any};
ghost use Rattle.sccp_base.specs.declared.mark.Mark.{Mark};
ghost use Rattle.sccp_message.specs.declared.message.Message.{Message};
ghost use Rattle.plan_model.specs.declared.spot.Spot.{Spot};
ghost use Rattle.plan_model.specs.Network.{Network};
ghost use Rattle.plan_model.specs.Steps.{step};
ghost use Rattle.relay_ways.specs.Conditions.{meets, is_possible};
ghost use Rattle.relay_ways.specs.Explained.{AreShortest};
ghost use Rattle.relay_ways.specs.Markings.{markings, AreParts};
ghost use Rattle.relay_ways.specs.Turns.{turns_of, Makes, HasRow};
ghost use Rattle.relay_ways.specs.declared.condition.Condition.{Condition};
ghost use Rattle.relay_ways.specs.declared.way.Way.{Way};

/// The turns of a spot are its steps over all markings: under a marking that meets the condition of one its step is made, and
/// each marking meets the condition of one. `HasRow` holds for each spot at a node of a plan.
pub fn turns_are_steps()
    ensures each { (plan : Network) (spot : Spot) (marking : List Mark)
        → AllByRecursion (Makes (step plan spot marking) marking) (turns_of plan spot) }
    ensures one { (plan : Network) (spot : Spot) (marking : List Mark) → HasRow plan spot
        → list_any (λ t. meets marking t.condition) (turns_of plan spot) ≡ true }
{}

/// The markings that begin one after the other (`begins`) are the least number that meets conditions in their order. Whoever cuts
/// the conditions into parts, each of which one marking meets, has no fewer parts. If some marking meets each condition, such a cut
/// has as many parts.
pub fn markings_are_least()
    ensures least { (conditions : List Condition) (parts : List (List Condition)) → AreParts conditions parts
        → markings conditions ≤ length parts }
    ensures enough { (conditions : List Condition) → All (λ c. is_possible c ≡ true) conditions
        → (parts : List (List Condition)) × AreParts conditions parts × (length parts ≡ markings conditions) }
{}

/// The conditions that `explain` gives are determined by the ways, the message and the point that it goes to.
pub fn shortest_conditions_are_one()
    ensures { (to : ℕ) (sent : Message) (found : List Way) (a b : List Condition)
        → AreShortest to sent found a → AreShortest to sent found b → a ≡ b }
{}
