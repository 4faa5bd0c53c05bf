//! What the answers say of two plans.
ghost use Rattle.std.specs.Prelude.{List, reverse};
ghost use Rattle.plan_model.specs.Network.{Network};
ghost use Rattle.plan_model.specs.SameNodes.{SameNodes};
ghost use Rattle.plan_order.specs.declared.safe_step.SafeStep.{SafeStep};
ghost use Rattle.plan_order.specs.Orders.{IsLawfulSteps};

/// The steps of an order in reverse are an order from the new plan back to the old one, with the same bounds. So while a step is made,
/// its relays can be given the old plan again, and then those of the steps before it.
pub fn orders_turn_back()
    ensures { (old new : Network) (steps : List SafeStep) → SameNodes old new → IsLawfulSteps old new steps
        → IsLawfulSteps new old (reverse steps) }
{}
