//! Laws on the plans that are made. Each call does nothing; its contract is the law.
ghost use Rattle.std.specs.Prelude.{ℕ, ◌<◌, ◌≤◌, ◌^◌};
ghost use Rattle.plan_classes.specs.Classes.{ReachesAtLeast};
ghost use Rattle.plan_model.specs.Verdicts.{Safe};
ghost use Rattle.made_load.specs.Loads.{AddUp, load_counts};
ghost use Rattle.made_load.specs.Relays.{load_plan};

/// The plan of each number is safe: within six hops each title ends at its destination or is blocked.
pub fn made_plans_are_safe()
    ensures { (number : ℕ) → Safe (load_plan number) 6 }
{}

/// It reaches at most 88 classes of titles.
pub fn made_plans_reach_few()
    ensures { (number count : ℕ) → 88 < count → ReachesAtLeast (load_plan number) count → ⊥ }
{}

/// Each message ends at its destination or is returned, after one to six translations, whatever the relays have lost.
pub fn load_counts_add_up()
    ensures { (number size : ℕ) → size ≤ 2 ^ 32 → AddUp size (load_counts number size) }
{}
