//! The conditions of what becomes of octets at a node.
ghost use Rattle.std.specs.Prelude.{◌≡◌, ◌<◌, ◌∷◌, ℕ, [], length, IfOk};
ghost use Rattle.sccp_message.specs.declared.message.Message.{Message};
ghost use Rattle.sccp_message.specs.Unitdata.{called_of};
ghost use Rattle.sccp_scrc.specs.Arriving.{point_of};
ghost use Rattle.sccp_scrc.specs.Rewriting.{spot_of};
ghost use Rattle.relay_ways.specs.Outcomes.{titled, is_user, at_user, on_subsystem, by_address, outcomes, outcome_conditions};

use crate::condition::{Condition, only_always};
use crate::turns::turn_conditions;
use plan_model::Plan;
use sccp_address::Address;
use sccp_base::{List, Mark, OutOfMemory};
use sccp_message::{DecodeFault, Message, decode};
use sccp_scrc::{is_last_hop, spot};
use std::alloc::Global;

/// Whether a subsystem number is that of a subsystem of the node, and not SCCP management.
fn is_user(plan: &Plan, node: u8, ssn: u8) -> bool
    requires { node < length plan.now.nodes }
    ensures { result ≡ is_user plan.now node ssn }
{
    ssn != 1 && plan.nodes().as_slice()[usize::from(node)].is_equipped(ssn)
}

/// The mark of a subsystem of the node.
fn user_mark(alloc: Global, plan: &Plan, node: u8, ssn: u8) -> Result<List<Mark>, OutOfMemory>
    ensures { IfOk result (λ own. own ≡ Mark.Subsystem (point_of plan.now node) ssn ∷ []) }
{
    let mut own = List::new(alloc);
    own.push(Mark::Subsystem(plan.point_of(node), ssn))?;
    Ok(own)
}

/// The conditions of a message for a subsystem of the node: open or prohibited.
fn at_user(alloc: Global, plan: &Plan, node: u8, ssn: u8) -> Result<List<Condition>, OutOfMemory>
    ensures { (origin : ℕ) (m : Message) → IfOk result (λ found. found ≡ outcome_conditions (at_user plan.now node origin m ssn)) }
{
    let none_of = user_mark(alloc, plan, node, ssn)?;
    let shut = user_mark(alloc, plan, node, ssn)?;
    let mut one_of = List::new(alloc);
    one_of.push(shut)?;
    let mut found = List::new(alloc);
    found.push(Condition {
        one_of: List::new(alloc),
        none_of,
    })?;
    found.push(Condition {
        one_of,
        none_of: List::new(alloc),
    })?;
    Ok(found)
}

/// The conditions of a message that is routed on its subsystem number.
fn on_subsystem(
    alloc: Global,
    plan: &Plan,
    node: u8,
    ssn: Option<u8>,
) -> Result<List<Condition>, OutOfMemory>
    requires { node < length plan.now.nodes }
    ensures { (origin : ℕ) (m : Message) → IfOk result (λ found. found ≡ outcome_conditions (on_subsystem plan.now node origin m ssn)) }
{
    match ssn {
        Some(ssn) => {
            if is_user(plan, node, ssn) {
                at_user(alloc, plan, node, ssn)
            } else {
                only_always(alloc)
            }
        }
        None => only_always(alloc),
    }
}

/// The conditions of a message that is routed on its global title, if its hop counter allows.
fn titled(
    alloc: Global,
    plan: &Plan,
    node: u8,
    address: &Address,
) -> Result<List<Condition>, OutOfMemory>
    requires { node < length plan.now.nodes }
    ensures { (origin : ℕ) (m : Message) → IfOk result (λ found. found
        ≡ outcome_conditions (titled plan.now node origin m address.now (spot_of node address.now))) }
{
    match spot(node, address) {
        Some(spot) => turn_conditions(alloc, plan, &spot),
        None => only_always(alloc),
    }
}

/// The conditions of what becomes of a message.
fn of_message(
    alloc: Global,
    plan: &Plan,
    node: u8,
    message: &Message,
) -> Result<List<Condition>, OutOfMemory>
    requires { node < length plan.now.nodes }
    ensures { (origin : ℕ) → IfOk result (λ found. found
        ≡ outcome_conditions (by_address plan.now node origin message.now (called_of message.now))) }
{
    match message.called() {
        Some(address) => {
            if address.by_ssn {
                on_subsystem(alloc, plan, node, address.ssn)
            } else if is_last_hop(message.hops()) {
                only_always(alloc)
            } else {
                titled(alloc, plan, node, address)
            }
        }
        None => only_always(alloc),
    }
}

/// The conditions of what becomes of octets at the node at this place of the plan, in the order of the outcomes. The point
/// from which the octets arrive does not matter.
pub(crate) fn outcome_conditions(
    alloc: Global,
    plan: &Plan,
    node: u8,
    octets: &[u8],
) -> Result<List<Condition>, OutOfMemory>
    requires { node < length plan.now.nodes }
    ensures { (origin : ℕ) → IfOk result (λ found. found ≡ outcome_conditions (outcomes plan.now node origin octets.now)) }
{
    match decode(alloc, octets) {
        Ok(message) => {
            let found = of_message(alloc, plan, node, &message);
            drop(message);
            found
        }
        Err(DecodeFault::OutOfMemory) => Err(OutOfMemory),
        Err(_) => only_always(alloc),
    }
}
