//! How a relay rewrites a message: the called address, and the hop counter (Q.714 section 2).
ghost use Rattle.std.specs.Prelude.{◌≡◌, ◌<◌, ℕ, IfSome, IsSome, Some, unwrap_or, option_map};
ghost use Rattle.sccp_address.specs.declared.address.Address.{Address};
ghost use Rattle.sccp_message.specs.declared.message.Message.{Message};
ghost use Rattle.sccp_message.specs.Unitdata.{called_of, hops_of};
ghost use Rattle.sccp_scrc.specs.Unitdata.{redirected};
ghost use Rattle.sccp_scrc.specs.Rewriting.{one_less, ssn_after, rerouted, to_relay, to_place, spot_of};
ghost use Rattle.sccp_scrc.specs.Next.{onward_address, new_address, spot_in};

use crate::fields::{redirect, redirect_in_place};
use plan_model::{Spot, Step};
use sccp_address::{Address, Title};
use sccp_message::Message;

/// The hop counter after a translation: one less. A counter above 15 counts as 15 (profile), and 0 stays 0.
pub fn one_less(hops: u8) -> u8
    ensures { result ≡ one_less hops }
{
    hops.min(15).saturating_sub(1)
}

/// The subsystem number after a step; an absent one stays absent if no target names one.
fn ssn_after(old: Option<u8>, ssn: u8) -> Option<u8>
    ensures { result ≡ ssn_after old ssn }
{
    if old.is_none() && ssn == 0 {
        None
    } else {
        Some(ssn)
    }
}

/// An address that is routed anew: with its national bit, and without its point code.
fn rerouted(old: &Address, by_ssn: bool, ssn: Option<u8>, title: Title) -> Address
    ensures { result ≡ rerouted old.now by_ssn ssn title }
{
    Address {
        national: old.national,
        by_ssn,
        pc: None,
        ssn,
        title,
    }
}

/// The called address to a relay.
fn to_relay(address: &Address, next: Spot) -> Address
    ensures { result ≡ to_relay address.now next }
{
    let title = Title::Global {
        selector: next.selector,
        digits: next.digits,
    };
    rerouted(address, false, ssn_after(address.ssn, next.ssn), title)
}

/// The called address to a destination, which keeps the title of the spot.
fn to_place(address: &Address, spot: &Spot, ssn: u8) -> Address
    requires { spot_of spot.now.node address.now ≡ Some spot.now }
    ensures { result ≡ to_place address.now ssn }
{
    let title = match &address.title {
        Title::Global { selector, digits } => Title::Global {
            selector: *selector,
            digits: *digits,
        },
        _ => unreachable!(),
    };
    rerouted(address, true, Some(ssn), title)
}

/// The called address that a message goes on with after a step, made of its present one. `None` if the step neither sends it
/// on nor ends at a place. The spot is that of the address.
pub fn onward_address(address: &Address, spot: &Spot, step: &Step) -> Option<Address>
    requires { spot_of spot.now.node address.now ≡ Some spot.now }
    ensures { result ≡ onward_address step.now address.now }
{
    match step {
        Step::Sent { next, .. } => Some(to_relay(address, *next)),
        Step::Ended { ssn, .. } => Some(to_place(address, spot, *ssn)),
        _ => None,
    }
}

/// The called address of a message after a step, if the message goes on.
pub(crate) fn address_after(message: &Message, spot: &Spot, step: &Step) -> Option<Address>
    requires { spot_in spot.now.node message.now ≡ Some spot.now }
    ensures { result ≡ new_address message.now step.now }
{
    let address = message.called()?;
    onward_address(address, spot, step)
}

/// The called address to a relay, of a message that has one.
pub(crate) fn relay_address(message: &Message, next: Spot) -> Option<Address>
    ensures { result ≡ option_map (λ a. to_relay a next) (called_of message.now) }
{
    match message.called() {
        Some(address) => Some(to_relay(address, next)),
        None => None,
    }
}

/// The message to another called address, its hop counter one less, and the called address that it had.
pub fn rewrite(message: Message, called: Address) -> (Message, Option<Address>)
    ensures changed { result.0 ≡ redirected called one_less message }
    ensures old { result.1 ≡ called_of message }
{
    let before = message.hops().unwrap_or(0);
    redirect(message, called, one_less(before))
}

/// The same in place: the called address that the message had.
pub(crate) fn rewrite_in_place(message: &mut Message, called: Address) -> Option<Address>
    ensures changed { message.new ≡ redirected called one_less message.old }
    ensures old { result ≡ called_of message.old }
{
    let before = message.hops().unwrap_or(0);
    redirect_in_place(message, called, one_less(before))
}

/// The message with the called address and the hop counter that it had, in place.
#[tactic(auto, using(crate::proofs::Redirected::redirected_back, crate::proofs::Redirected::redirected_none))]
pub(crate) fn restore_in_place(message: &mut Message, old: Option<Address>, before: u8)
    ensures { (x : Address) (f : ℕ → ℕ) (m : Message) → called_of m ≡ old → before ≡ unwrap_or (hops_of m) 0
        → message.old ≡ redirected x f m → message.new ≡ m }
{
    match old {
        Some(called) => {
            let _ = redirect_in_place(message, called, before);
        }
        None => {}
    }
}

/// The message with the called address and the hop counter that it had.
#[tactic(auto, using(crate::proofs::Redirected::redirected_back))]
pub(crate) fn restore(message: Message, old: Option<Address>, before: u8) -> Message
    requires { IsSome old }
    ensures { (x : Address) (f : ℕ → ℕ) (m : Message) → called_of m ≡ old → before ≡ unwrap_or (hops_of m) 0 → message ≡ redirected x f m
        → result ≡ m }
{
    match old {
        Some(called) => {
            let (back, _) = redirect(message, called, before);
            back
        }
        None => unreachable!(),
    }
}

/// The spot of an address at the node at this place of the plan: its title and its subsystem number, 0 if that is absent.
/// `None` for an address without a title of digits.
pub fn spot(node: u8, address: &Address) -> Option<Spot>
    ensures value { result ≡ spot_of node address.now }
    ensures node { IfSome result (λ s. s.node ≡ node) }
{
    match &address.title {
        Title::Global { selector, digits } => Some(Spot {
            node,
            selector: *selector,
            ssn: address.ssn.unwrap_or(0),
            digits: *digits,
        }),
        _ => None,
    }
}

/// The spot of a message at a node.
pub(crate) fn spot_in(node: u8, message: &Message) -> Option<Spot>
    ensures value { result ≡ spot_in node message.now }
    ensures node { IfSome result (λ s. s.node ≡ node) }
{
    match message.called() {
        Some(address) => spot(node, address),
        None => None,
    }
}
