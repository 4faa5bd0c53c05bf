//! A message on its way from relay to relay. It is changed in place, and written only when it leaves them (Q.714 section 2).
ghost use Rattle.std.specs.Prelude.{◌≡◌, ◌<◌, length, true, false, not, Some, None, IfOk};
ghost use Rattle.std.specs.Option.{option_map_or};
ghost use Rattle.sccp_address.specs.declared.address.Address.{Address};
ghost use Rattle.sccp_message.specs.Written.{Writable};
ghost use Rattle.sccp_message.specs.Unitdata.{called_of};
ghost use Rattle.plan_model.specs.Routes.{StaysIn};
ghost use Rattle.sccp_scrc.specs.Unitdata.{redirected, octets_of};
ghost use Rattle.sccp_scrc.specs.Rewriting.{one_less};
ghost use Rattle.sccp_scrc.specs.Arriving.{by_called, after_step, at_title};
ghost use Rattle.sccp_scrc.specs.Passing.{sent_by, sent_from, sent_on, IsSent, IsPassed};

use crate::arriving::is_last_hop;
use crate::leaving::octets_of;
use crate::lengths::fits;
use crate::passed::Passed;
use crate::rewriting::{relay_address, restore_in_place, rewrite_in_place, spot_in};
use plan_model::{Hop, Plan, Step, step};
use sccp_address::Address;
use sccp_base::{Marking, OutOfMemory};
use sccp_message::Message;
use std::alloc::Global;

/// Whether the message can be written. It is written to find out.
#[tactic(auto, using(crate::proofs::Staying::has_octets))]
fn can_be_written(alloc: Global, message: &Message) -> Result<bool, OutOfMemory>
    ensures yes { IfOk result (λ can. can ≡ true → Writable message.now) }
    ensures no { IfOk result (λ can. can ≡ false → octets_of message.now ≡ None) }
{
    match octets_of(alloc, message)? {
        Some(_) => Ok(true),
        None => Ok(false),
    }
}

/// Gives the message another called address and a hop counter one less, if it can be written so; otherwise it stays. It is
/// written to find out.
fn pass_written(alloc: Global, message: &mut Message, to: Address) -> Result<bool, OutOfMemory>
    ensures passed { IfOk result (λ passed. passed ≡ true → (message.new ≡ redirected to one_less message.old)
        × Writable (redirected to one_less message.old)) }
    ensures kept { IfOk result (λ passed. passed ≡ false
        → (message.new ≡ message.old) × (octets_of (redirected to one_less message.old) ≡ None)) }
{
    let before = message.hops().unwrap_or(0);
    let old = rewrite_in_place(message, to);
    if can_be_written(alloc, message)? {
        return Ok(true);
    }
    restore_in_place(message, old, before);
    Ok(false)
}

/// The same, without writing if the lengths already show that the message can be written, as nearly always.
fn pass_to(alloc: Global, message: &mut Message, to: Address) -> Result<bool, OutOfMemory>
    ensures passed { IfOk result (λ passed. passed ≡ true → (message.new ≡ redirected to one_less message.old)
        × Writable (redirected to one_less message.old)) }
    ensures kept { IfOk result (λ passed. passed ≡ false
        → (message.new ≡ message.old) × (octets_of (redirected to one_less message.old) ≡ None)) }
{
    if fits(message, &to) {
        rewrite_in_place(message, to);
        return Ok(true);
    }
    pass_written(alloc, message, to)
}

/// The place of the relay to which a step sends the message on, if it sends it on and the message can be written.
#[tactic(auto, using(crate::proofs::Staying::place_stays))]
fn pass_by_step(
    alloc: Global,
    plan: &Plan,
    node: u8,
    marking: &Marking,
    message: &mut Message,
    step: &Step,
) -> Result<Option<u8>, OutOfMemory>
    requires stays { StaysIn plan.now step.now }
    ensures { (address : Address) → called_of message.old ≡ Some address →
        IfOk result (λ next. IsSent plan.now (λ origin. after_step plan.now node marking.now origin message.old address step.now)
        (sent_by address message.old step.now) message.old message.new next) }
{
    match step {
        Step::Sent { next, .. } => match relay_address(message, *next) {
            Some(to) => {
                if pass_to(alloc, message, to)? {
                    Ok(Some(next.node))
                } else {
                    Ok(None)
                }
            }
            None => Ok(None),
        },
        _ => Ok(None),
    }
}

/// What is done with a message that is routed on title. First the hop counter is tested.
fn pass_by_title(
    alloc: Global,
    plan: &Plan,
    node: u8,
    marking: &Marking,
    message: &mut Message,
) -> Result<Passed, OutOfMemory>
    requires node { node < length plan.now.nodes }
    ensures { (address : Address) → called_of message.old ≡ Some address →
        IfOk result (IsPassed plan.now node marking.now (λ origin. at_title plan.now node marking.now origin message.old address)
        (sent_from plan.now node marking.now message.old address) message.old message.new) }
{
    if is_last_hop(message.hops()) {
        return Ok(Passed::Stays(None));
    }
    match spot_in(node, message) {
        None => Ok(Passed::Stays(None)),
        Some(spot) => {
            let step = step(alloc, plan, &spot, marking)?;
            match pass_by_step(alloc, plan, node, marking, message, &step) {
                Ok(Some(next)) => {
                    drop(step);
                    Ok(Passed::On { next })
                }
                Ok(None) => Ok(Passed::Stays(Some(Hop { spot, step }))),
                Err(fault) => {
                    drop(step);
                    Err(fault)
                }
            }
        }
    }
}

/// Whether a message is routed on title.
fn is_titled(message: &Message) -> bool
    ensures { result ≡ option_map_or (λ a. not a.by_ssn) (called_of message.now) false }
{
    match message.called() {
        Some(address) => !address.by_ssn,
        None => false,
    }
}

/// Sends a message on from the node at this place of the plan, which holds the marking, and gives the place of the next
/// relay. The message is then the one that goes there, and can be written. `Stays` exactly if the message is not relayed:
/// then it stays as it is, and `arrive_stepped` or `arrive_message` gives what becomes of it. (After want of memory nothing is
/// promised of the message.)
#[tactic(auto, using(crate::proofs::Staying::subsystem_stays))]
pub fn pass_on(
    alloc: Global,
    plan: &Plan,
    node: u8,
    marking: &Marking,
    message: &mut Message,
) -> Result<Passed, OutOfMemory>
    requires node { node < length plan.now.nodes }
    ensures { IfOk result (IsPassed plan.now node marking.now
        (λ origin. by_called plan.now node marking.now origin message.old (called_of message.old))
        (sent_on plan.now node marking.now message.old) message.old message.new) }
{
    if is_titled(message) {
        pass_by_title(alloc, plan, node, marking, message)
    } else {
        Ok(Passed::Stays(None))
    }
}
