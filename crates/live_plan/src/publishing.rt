//! What the publisher does while the workers serve a batch.
ghost use Rattle.std.specs.Prelude.{◌≡◌, ◌++◌};
ghost use Rattle.live_plan.specs.Publishing.{HasPublished};
ghost use Rattle.live_plan.specs.Tellers.{plans_of, due_of};

use crate::gate::Gate;
use crate::teller::Teller;
use plan_check::Accepted;
use sccp_base::OutOfMemory;
use std::collections::VecDeque;
use std::sync::Wait;

/// Publishes the coming plans, one after the other, and reports each to the gate. The only error is lack of memory.
pub(crate) fn publish_all<R: Wait, G: Gate>(
    rt: &R,
    gate: &G,
    teller: &mut Teller,
    plans: &mut VecDeque<Accepted>,
) -> Result<(), OutOfMemory>
    requires { due_of teller.old ≡ plans_of teller.old ++ plans.old.items }
    ensures { HasPublished teller.old teller.new result }
{
    while let Some(next) = plans.pop_front() {
        teller.advance(rt, next)?;
        gate.published(teller.number());
    }
    Ok(())
}
