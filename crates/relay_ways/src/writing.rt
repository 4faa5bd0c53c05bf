//! The messages that a node makes of an arrival, with another called address.
ghost use Rattle.std.specs.Prelude.{◌≡◌, ◌<◌, ◌++◌, ◌∷◌, [], length, IfOk, OnOk, Some, Ok, option_map};
ghost use Rattle.sccp_message.specs.declared.message.Message.{Message};
ghost use Rattle.sccp_message.specs.Reading.{reading};
ghost use Rattle.plan_model.specs.Routes.{StaysIn};
ghost use Rattle.sccp_scrc.specs.Rewriting.{one_less, spot_of};
ghost use Rattle.sccp_scrc.specs.Unitdata.{redirected, octets_of};
ghost use Rattle.relay_ways.specs.Candidates.{candidate, if_written, onward};

use crate::candidate::Candidate;
use plan_model::{Plan, Spot, Step};
use sccp_address::Address;
use sccp_base::{List, Octets, OutOfMemory, PointCode};
use sccp_message::{Message, decode};
use sccp_scrc::{octets_of, onward_address, rewrite};
use std::alloc::Global;

/// The message that octets are, which read.
pub(crate) fn read(alloc: Global, octets: &[u8]) -> Result<Message, OutOfMemory>
    ensures { (m : Message) → reading octets.now ≡ Ok m → IfOk result (λ message. message ≡ m) }
{
    match decode(alloc, octets) {
        Ok(message) => Ok(message),
        Err(_) => Err(OutOfMemory),
    }
}

/// The octets of a message to another called address, its hop counter one less, if they can be written.
pub(crate) fn rewritten(
    alloc: Global,
    octets: &[u8],
    called: Address,
) -> Result<Option<Octets>, OutOfMemory>
    ensures { (m : Message) → reading octets.now ≡ Ok m → IfOk result (λ new. new ≡ octets_of (redirected called one_less m)) }
{
    let (new, _) = rewrite(read(alloc, octets)?, called);
    let written = octets_of(alloc, &new);
    drop(new);
    written
}

pub(crate) fn add(
    found: &mut List<Candidate>,
    cause: Option<u8>,
    to: PointCode,
    octets: Octets,
) -> Result<(), OutOfMemory>
    ensures { OnOk result (found.new ≡ found.old ++ candidate cause to octets ∷ []) }
{
    found.push(Candidate { cause, to, octets })?;
    Ok(())
}

/// Adds the service message with a cause, if it can be written with this called address.
pub(crate) fn add_written(
    alloc: Global,
    octets: &[u8],
    cause: u8,
    to: PointCode,
    called: Address,
    found: &mut List<Candidate>,
) -> Result<(), OutOfMemory>
    ensures { (m : Message) → reading octets.now ≡ Ok m
        → OnOk result (found.new ≡ found.old ++ if_written (Some cause) to (octets_of (redirected called one_less m))) }
{
    match rewritten(alloc, octets, called)? {
        Some(new) => add(found, Some(cause), to, new),
        None => Ok(()),
    }
}

/// A point, and the called address of a message that goes there.
fn going_to(to: PointCode, called: Option<Address>) -> Option<(PointCode, Address)>
    ensures { result ≡ option_map (λ a. (to, a)) called }
{
    match called {
        Some(called) => Some((to, called)),
        None => None,
    }
}

/// The point to which a step leads, and the called address that the message goes on with. `None` if the message stays.
pub(crate) fn onward(
    plan: &Plan,
    node: u8,
    address: &Address,
    spot: &Spot,
    step: &Step,
) -> Option<(PointCode, Address)>
    requires node { node < length plan.now.nodes }
    requires spot { spot_of spot.now.node address.now ≡ Some spot.now }
    requires stays { StaysIn plan.now step.now }
    ensures { result ≡ onward plan.now node address.now step.now }
{
    match step {
        Step::Sent { next, .. } => {
            let to = plan.point_of(next.node);
            going_to(to, onward_address(address, spot, step))
        }
        Step::Ended { pc, .. } => {
            if *pc == plan.point_of(node) {
                return None;
            }
            going_to(*pc, onward_address(address, spot, step))
        }
        _ => None,
    }
}
