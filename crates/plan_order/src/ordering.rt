//! A safe order of the steps of a changeover.
ghost use Rattle.std.specs.Prelude.{◌≡◌, ◌↔◌, IfOk, Err};
ghost use Rattle.plan_model.specs.SameNodes.{SameNodes};
ghost use Rattle.plan_change.specs.declared.change_fault.ChangeFault.TheVariants as faults;
ghost use Rattle.plan_order.specs.Orders.{IsLawfulOrder};

use crate::answer::Order;
use crate::found::Found;
use crate::known::Known;
use crate::plans::Plans;
use crate::rows::differing;
use crate::seeking::seek;
use crate::stopping::stop_at;
use plan_change::ChangeFault;
use plan_check::Accepted;
use plan_model::{Plan, have_same_nodes};
use sccp_base::{List, OutOfMemory};
use std::alloc::Global;

/// Steps from the old plan to the new one, each of which is safe whichever of the two plans its relays hold meanwhile. The relays of
/// earlier steps hold the new plan then, and all others the old one. Each title that both plans cover is blocked, or reaches a place
/// that all its covers in both plans allow, within the bound of the step. Only relays whose rows differ are in steps, each step has at
/// least one, and none is in two.
/// The answer is `NoOrder` only if no sets of relays are an order, and `Undecided` only if there are at least 256 sets from which no
/// order goes on, or the two plans reach at least as many classes as the limit of the old plan says.
/// The fault is `OtherNodes` exactly if names, point codes, subsystems and concerned points, in order, are not the same.
pub fn order(alloc: Global, old: &Accepted, new: &Accepted) -> Result<Order, ChangeFault>
    ensures lawful { IfOk result (IsLawfulOrder old.now.plan new.now.plan) }
    ensures other { (result ≡ Err faults.OtherNodes) ↔ (SameNodes old.now.plan new.now.plan → ⊥) }
{
    let old = old.plan();
    let new = new.plan();
    if !have_same_nodes(old, new) {
        return Err(ChangeFault::OtherNodes);
    }
    Ok(order_of(alloc, &Plans { old, new })?)
}

/// The answer on two plans of the same relays.
fn order_of(alloc: Global, plans: &Plans<'_>) -> Result<Order, OutOfMemory>
    requires same { SameNodes plans.now.old.now plans.now.new.now }
    ensures { IfOk result (IsLawfulOrder plans.now.old.now plans.now.new.now) }
{
    let left = differing(alloc, plans.old, plans.new)?;
    let mut known = Known::new(alloc);
    let found = seek(alloc, plans, &[], left.as_slice(), &mut known)?;
    let wide = known.wide;
    drop(known);
    match found {
        Found::Steps(steps) => Ok(Order::Steps(steps)),
        Found::Nowhere => {
            if wide {
                return Ok(Order::Undecided);
            }
            stop_at(alloc, plans, &[], left.as_slice(), List::new(alloc))
        }
        Found::GaveUp => Ok(Order::Undecided),
    }
}
