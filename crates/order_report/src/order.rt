//! The text of an order of the steps of a changeover.
ghost use Rattle.std.specs.Prelude.{◌≡◌, ◌++◌, OnOk, IfOk};
ghost use Rattle.plan_model.specs.SameNodes.{SameNodes};
ghost use Rattle.plan_order.specs.Orders.{IsLawfulOrder};
ghost use Rattle.order_report.specs.Orders.{order_line, step_line, steps_text, no_order_line, undecided_line, order_text};

use crate::stuck::put_stuck_relays;
use plan_model::Plan;
use plan_order::{Order, SafeStep};
use sccp_base::{Octets, OutOfMemory};
use sccp_report::{Text, put_path};
use std::alloc::Global;

/// Appends how many steps an order has.
#[tactic(auto, unfolding(crate::specs::Orders::order_line))]
fn put_order(text: &mut Text, count: usize) -> Result<(), OutOfMemory>
    ensures { OnOk result (text.new ≡ text.old ++ order_line count) }
{
    text.put_counted(b"order ", count)?;
    text.put(b"\n")
}

/// Appends the line of the step of this number.
#[tactic(auto, unfolding(crate::specs::Orders::step_line))]
fn put_step(text: &mut Text, plan: &Plan, number: usize, step: &SafeStep) -> Result<(), OutOfMemory>
    ensures { OnOk result (text.new ≡ text.old ++ step_line plan.now number step.now) }
{
    text.put_counted(b"step ", number)?;
    text.put(b" ")?;
    put_path(text, plan, step.nodes.as_slice())?;
    text.put_numbered(b" bound ", u32::from(step.bound))?;
    text.put(b"\n")
}

/// Appends a line for each step, with numbers from 1 on.
fn put_steps(text: &mut Text, plan: &Plan, steps: &[SafeStep]) -> Result<(), OutOfMemory>
    ensures { OnOk result (text.new ≡ text.old ++ steps_text plan.now 1 steps.now) }
{
    for (i, step) in steps.iter().enumerate() {
        put_step(text, plan, i + 1, step)?;
    }
    Ok(())
}

/// Appends that there is no order.
#[tactic(auto, unfolding(crate::specs::Orders::no_order_line))]
fn put_no_order(text: &mut Text) -> Result<(), OutOfMemory>
    ensures { OnOk result (text.new ≡ text.old ++ no_order_line) }
{
    text.put(b"no order\n")
}

/// Appends that the search for an order was given up.
#[tactic(auto, unfolding(crate::specs::Orders::undecided_line))]
fn put_undecided(text: &mut Text) -> Result<(), OutOfMemory>
    ensures { OnOk result (text.new ≡ text.old ++ undecided_line) }
{
    text.put(b"undecided\n")
}

/// The steps of an order from one plan to another of the same nodes. If there is none it is the safe steps that lead to a point from
/// which no relay can be next, and the bad mixed route of each relay that is left. Each hop follows `old ` or `new ` for the plan that
/// its relay held.
pub fn order_text(
    alloc: Global,
    old: &Plan,
    new: &Plan,
    order: &Order,
) -> Result<Octets, OutOfMemory>
    requires same { SameNodes old.now new.now }
    requires lawful { IsLawfulOrder old.now new.now order.now }
    ensures { IfOk result (λ text. text ≡ order_text old.now order.now) }
{
    let mut text = Text::new(alloc);
    match order {
        Order::Steps(steps) => {
            put_order(&mut text, steps.as_slice().len())?;
            put_steps(&mut text, old, steps.as_slice())?;
        }
        Order::NoOrder(steps, stuck) => {
            put_no_order(&mut text)?;
            put_steps(&mut text, old, steps.as_slice())?;
            put_stuck_relays(&mut text, old, stuck.as_slice())?;
        }
        Order::Undecided => put_undecided(&mut text)?,
    }
    Ok(text.into_octets())
}
