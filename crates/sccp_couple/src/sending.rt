//! What a relay sends: messages written as octets, each with the point that it goes to.
ghost use Rattle.std.specs.Prelude.{◌≡◌, ◌≤◌, ◌++◌, ℕ, [], map, length, true, IfOk, Some, Ok};
ghost use Rattle.sccp_layout.specs.Joining.{are_short};
ghost use Rattle.sccp_message.specs.declared.message.Message.{Message};
ghost use Rattle.sccp_message.specs.Encoding.{Gives};
ghost use Rattle.sccp_message.specs.Written.{message_octets, Writable};
ghost use Rattle.sccp_couple.specs.Coupling.{to_one, to_remote, toward};
ghost use Rattle.sccp_couple.specs.Sending.{written_sent};

use crate::section::Section;
use sccp_base::{List, Octets, OutOfMemory, PointCode, Reference};
use sccp_layout::{Param, copied_params};
use sccp_manage::Sent;
use sccp_message::{EncodeFault, Message, encode};
use std::alloc::Global;

/// What is written of a message, which is then no longer needed.
fn written(alloc: Global, message: Message) -> Result<Octets, EncodeFault>
    requires { Writable message }
    ensures { Gives (λ octets. octets) result (Ok (message_octets message)) }
{
    let octets = encode(alloc, &message);
    drop(message);
    octets
}

/// The octets of a message that can be written.
fn octets_of(alloc: Global, message: Message) -> Result<Octets, OutOfMemory>
    requires { Writable message }
    ensures { IfOk result (λ octets. octets ≡ message_octets message) }
{
    match written(alloc, message) {
        Ok(octets) => Ok(octets),
        Err(EncodeFault::OutOfMemory) => Err(OutOfMemory),
        Err(_) => unreachable!(),
    }
}

/// One message to one point.
pub(crate) fn to_one(
    alloc: Global,
    to: PointCode,
    message: Message,
) -> Result<List<Sent>, OutOfMemory>
    requires { Writable message }
    ensures { IfOk result (λ sent. sent ≡ map written_sent (to_one to message)) }
{
    let octets = octets_of(alloc, message)?;
    let mut sent = List::new(alloc);
    sent.push(Sent { to, octets })?;
    Ok(sent)
}

/// Two messages, each to a point.
pub(crate) fn to_two(
    alloc: Global,
    to: PointCode,
    message: Message,
    then_to: PointCode,
    then_message: Message,
) -> Result<List<Sent>, OutOfMemory>
    requires first { Writable message }
    requires second { Writable then_message }
    ensures { IfOk result (λ sent. sent ≡ map written_sent (to_one to message ++ to_one then_to then_message)) }
{
    let then_octets = octets_of(alloc, then_message);
    let mut sent = to_one(alloc, to, message)?;
    let octets = then_octets?;
    sent.push(Sent {
        to: then_to,
        octets,
    })?;
    Ok(sent)
}

/// A protocol data unit error (ERR).
pub(crate) fn error(
    alloc: Global,
    to: PointCode,
    dlr: Reference,
    cause: u8,
) -> Result<List<Sent>, OutOfMemory>
    ensures { IfOk result (λ sent. sent ≡ map written_sent (to_one to (Message.Err dlr cause))) }
{
    to_one(alloc, to, Message::Err { dlr, cause })
}

/// A refusal (CREF) without parameters.
pub(crate) fn refusal(
    alloc: Global,
    to: PointCode,
    dlr: Reference,
    cause: u8,
) -> Result<List<Sent>, OutOfMemory>
    ensures { IfOk result (λ sent. sent ≡ map written_sent (to_one to (Message.Cref dlr cause []))) }
{
    let params = List::new(alloc);
    to_one(alloc, to, Message::Cref { dlr, cause, params })
}

/// A confirmation (CC).
#[tactic(auto, using(crate::proofs::Fits::confirm_fits))]
fn confirmation(
    alloc: Global,
    to: PointCode,
    dlr: Reference,
    slr: Reference,
    class: u8,
    params: &List<Param>,
) -> Result<List<Sent>, OutOfMemory>
    requires { are_short params.now ≡ true }
    ensures { IfOk result (λ sent. sent ≡ map written_sent (to_one to (Message.Cc dlr slr class params.now))) }
{
    let params = copied_params(alloc, params)?;
    let message = Message::Cc {
        dlr,
        slr,
        class,
        params,
    };
    to_one(alloc, to, message)
}

/// A confirmation toward a section, if there is one and it has a remote.
pub(crate) fn confirm_toward(
    alloc: Global,
    section: Option<Section>,
    class: u8,
    params: &List<Param>,
) -> Result<List<Sent>, OutOfMemory>
    requires { are_short params.now ≡ true }
    ensures { IfOk result (λ sent. sent ≡ map written_sent (toward section (λ remote own. Message.Cc remote own class params.now))) }
{
    match section {
        None => Ok(List::new(alloc)),
        Some(section) => match section.remote {
            None => Ok(List::new(alloc)),
            Some(remote) => confirmation(alloc, section.point, remote, section.own, class, params),
        },
    }
}

/// A refusal (CREF) with the parameters of the one received.
#[tactic(auto, using(crate::proofs::Fits::refusal_fits))]
fn refusal_with(
    alloc: Global,
    to: PointCode,
    dlr: Reference,
    cause: u8,
    params: &List<Param>,
) -> Result<List<Sent>, OutOfMemory>
    requires { are_short params.now ≡ true }
    ensures { IfOk result (λ sent. sent ≡ map written_sent (to_one to (Message.Cref dlr cause params.now))) }
{
    let params = copied_params(alloc, params)?;
    to_one(alloc, to, Message::Cref { dlr, cause, params })
}

/// A refusal toward a section, if there is one and it has a remote.
pub(crate) fn refuse_toward(
    alloc: Global,
    section: Option<Section>,
    cause: u8,
    params: &List<Param>,
) -> Result<List<Sent>, OutOfMemory>
    requires { are_short params.now ≡ true }
    ensures { IfOk result (λ sent. sent ≡ map written_sent (toward section (λ remote own. Message.Cref remote cause params.now))) }
{
    match section {
        None => Ok(List::new(alloc)),
        Some(section) => match section.remote {
            None => Ok(List::new(alloc)),
            Some(remote) => refusal_with(alloc, section.point, remote, cause, params),
        },
    }
}

/// Data (DT1).
#[tactic(auto, using(crate::proofs::Fits::data_fits))]
fn data(
    alloc: Global,
    to: PointCode,
    dlr: Reference,
    more: bool,
    payload: &Octets,
) -> Result<List<Sent>, OutOfMemory>
    requires { length payload.now ≤ 255 }
    ensures { IfOk result (λ sent. sent ≡ map written_sent (to_one to (Message.Dt1 dlr more payload.now))) }
{
    let payload = payload.try_clone(alloc)?;
    to_one(alloc, to, Message::Dt1 { dlr, more, payload })
}

/// Data toward a section, if there is one and it has a remote.
pub(crate) fn data_toward(
    alloc: Global,
    section: Option<Section>,
    more: bool,
    payload: &Octets,
) -> Result<List<Sent>, OutOfMemory>
    requires { length payload.now ≤ 255 }
    ensures { IfOk result (λ sent. sent ≡ map written_sent (toward section (λ remote own. Message.Dt1 remote more payload.now))) }
{
    match section {
        None => Ok(List::new(alloc)),
        Some(section) => match section.remote {
            None => Ok(List::new(alloc)),
            Some(remote) => data(alloc, section.point, remote, more, payload),
        },
    }
}
