//! Messages that leave a node: their octets, and the return of those that cannot be written.
ghost use Rattle.std.specs.Prelude.{◌≡◌, ◌==◌, if◌then◌else◌, IfOk, IsSome};
ghost use Rattle.sccp_scrc.specs.declared.arrival.Arrival.TheVariants.{Relayed, Ended, Local};
ghost use Rattle.sccp_message.specs.Unitdata.{called_of};
ghost use Rattle.sccp_scrc.specs.Unitdata.{redirected, octets_of};
ghost use Rattle.sccp_scrc.specs.Rewriting.{one_less};
ghost use Rattle.sccp_scrc.specs.Arriving.{leaving, point_of};

use crate::arrival::Arrival;
use crate::here::Here;
use crate::returning::returned;
use crate::rewriting::{restore, rewrite};
use sccp_address::Address;
use sccp_base::{List, Octets, OutOfMemory, PointCode};
use sccp_message::{EncodeFault, Message, encode};
use std::alloc::Global;

/// The octets of a message. `None` if it cannot be written; the error is want of memory.
#[tactic(auto, using(crate::proofs::Redirected::octets_written))]
pub fn octets_of(alloc: Global, message: &Message) -> Result<Option<Octets>, OutOfMemory>
    ensures { IfOk result (λ octets. octets ≡ octets_of message.now) }
{
    match encode(alloc, message) {
        Ok(octets) => Ok(Some(octets)),
        Err(EncodeFault::TooLong(_)) => Ok(None),
        Err(EncodeFault::PointerTooFar(_)) => Ok(None),
        Err(EncodeFault::OutOfMemory) => Err(OutOfMemory),
    }
}

/// Sends a message on to a relay, if it can be written; otherwise it is returned for cause 9.
pub(crate) fn relay(
    alloc: Global,
    here: &Here<'_>,
    pc: PointCode,
    message: Message,
    to: Address,
) -> Result<Arrival, OutOfMemory>
    requires called { IsSome (called_of message) }
    ensures { IfOk result (λ a. a ≡ leaving here.now.marking.now here.now.origin message (Relayed pc)
        (octets_of (redirected to one_less message))) }
{
    let before = message.hops().unwrap_or(0);
    let (new, old) = rewrite(message, to);
    match octets_of(alloc, &new) {
        Ok(Some(octets)) => {
            drop(new);
            Ok(Arrival::Relayed { pc, octets })
        }
        Ok(None) => returned(alloc, here, restore(new, old, before), 9, List::new(alloc)),
        Err(fault) => {
            drop(new);
            Err(fault)
        }
    }
}

/// Sends a message to a destination at another point, if it can be written; otherwise it is returned for cause 9.
fn depart(
    alloc: Global,
    here: &Here<'_>,
    pc: PointCode,
    ssn: u8,
    message: Message,
    to: Address,
) -> Result<Arrival, OutOfMemory>
    requires called { IsSome (called_of message) }
    ensures { IfOk result (λ a. a ≡ leaving here.now.marking.now here.now.origin message (Ended pc ssn)
        (octets_of (redirected to one_less message))) }
{
    let before = message.hops().unwrap_or(0);
    let (new, old) = rewrite(message, to);
    match octets_of(alloc, &new) {
        Ok(Some(octets)) => {
            drop(new);
            Ok(Arrival::Ended { pc, ssn, octets })
        }
        Ok(None) => returned(alloc, here, restore(new, old, before), 9, List::new(alloc)),
        Err(fault) => {
            drop(new);
            Err(fault)
        }
    }
}

/// Sends a message to a destination: to a subsystem of the node if the point is the node's own, otherwise to another point.
pub(crate) fn place(
    alloc: Global,
    here: &Here<'_>,
    pc: PointCode,
    ssn: u8,
    message: Message,
    to: Address,
) -> Result<Arrival, OutOfMemory>
    requires called { IsSome (called_of message) }
    ensures { IfOk result (λ a. a
        ≡ (if pc == point_of here.now.plan.now here.now.node then Local ssn (redirected to one_less message)
        else leaving here.now.marking.now here.now.origin message (Ended pc ssn)
        (octets_of (redirected to one_less message)))) }
{
    if pc == here.plan.point_of(here.node) {
        let (message, _) = rewrite(message, to);
        return Ok(Arrival::Local { ssn, message });
    }
    depart(alloc, here, pc, ssn, message, to)
}
