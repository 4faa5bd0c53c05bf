//! Laws of the live plan, over its definitions.
ghost use Rattle.std.specs.Prelude.{◌≡◌, ℕ, ◌≤◌, List, take, Option};
ghost use Rattle.plan_check.specs.Verified.{Verified};
ghost use Rattle.live_plan.specs.Machine.{Machine, Event, IsValid, MayAllCome, IsLater, LeadsTo, after_events};
ghost use Rattle.live_plan.specs.Plans.{Extends, HasPlan, IsEnd, pass_of};

/// The events of the live plan are: a plan is published, a worker enters, a worker learns how many are published. After any
/// list of possible events no worker's number has fallen, none exceeds the number of plans, and each plan keeps its number. A
/// batch is such a list of events, from the plans and numbers before it to those after it. So this holds of it too.
pub fn numbers_never_fall()
    ensures events { (m : Machine) (events : List Event) → IsValid m → MayAllCome m events → IsLater m (after_events m events) }
    ensures batch { (m after : Machine) → IsValid m → LeadsTo m after → IsLater m after }
{}

/// A longer pass of a place begins with each shorter one. The pass that is as long as a plan's number ends with that plan.
pub fn passes_go_on()
    ensures extends { (plans : Option (List Verified)) (m n : ℕ) → m ≤ n → Extends (pass_of plans m) (pass_of plans n) }
    ensures ends { (plans : List Verified) (n : ℕ) (plan : Verified) → HasPlan plans n plan → IsEnd n plan (take n plans) }
{}
