//! The setting of a batch without further plans.
ghost use Rattle.std.specs.Prelude.{◌≡◌, ◌<◌, length};
ghost use Rattle.live_plan.specs.Plans.{nodes_of};

use plan_check::Accepted;
use relay_net::NodeState;

/// What all jobs of such a batch use: one plan, which has this number, and the states of its nodes.
#[derive(Drop)]
pub(crate) struct Setting<'a> {
    pub number: u32,
    pub plan: &'a Accepted,
    pub states: &'a [NodeState],
    /// The number of workers that the gate hears of. A job is reported as if the worker of its share served it.
    pub workers: u32,
    ghost some: { 0 < workers },
    ghost whole: { length states.now ≡ nodes_of plan.now },
}
