//! Under which markings a relay sends a given message because of a given arrival.
ghost use Rattle.std.specs.Prelude.{◌≡◌, IsTrue, ◌↔◌, IfOk, OnOk, map};
ghost use Rattle.std.specs.List.{All};
ghost use Rattle.relay_ways.specs.Explained.{IsSendingOf, Keeps, AreConditions, AreThose, AreShortest, Tells, IsHandled, AddsTold};
ghost use Rattle.relay_ways.specs.Ways.{ways};

use crate::alike::is_alike;
use crate::all_ways::ways;
use crate::condition::copied;
use crate::explanation::Explanation;
use crate::handling::handle;
use crate::incoming::Incoming;
use crate::settling::settled;
use crate::way::{Sending, Way};
use sccp_base::{List, OutOfMemory, PointCode};
use sccp_message::{DecodeFault, Message, decode};
use std::alloc::Global;

/// Whether what is sent is a message like this one, to that point.
fn is_sending_of(
    alloc: Global,
    sending: &Sending,
    to: PointCode,
    sent: &Message,
) -> Result<bool, OutOfMemory>
    ensures { IfOk result (λ answer. IsTrue answer ↔ IsSendingOf to sent.now sending.now) }
{
    if sending.to != to {
        return Ok(false);
    }
    match decode(alloc, sending.octets.as_slice()) {
        Ok(message) => {
            let answer = is_alike(to, &message, sent);
            drop(message);
            Ok(answer)
        }
        Err(DecodeFault::OutOfMemory) => Err(OutOfMemory),
        Err(_) => Ok(false),
    }
}

/// The same way in memory of its own.
fn copied_way(alloc: Global, way: &Way) -> Result<Way, OutOfMemory>
    ensures { IfOk result (λ copy. copy ≡ way.now) }
{
    let condition = copied(alloc, &way.condition)?;
    let octets = way.sending.octets.try_clone(alloc)?;
    Ok(Way {
        condition,
        sending: Sending {
            to: way.sending.to,
            octets,
        },
    })
}

/// Keeps a way that sends a message like this one to that point.
fn keep(
    alloc: Global,
    kept: &mut List<Way>,
    way: &Way,
    to: PointCode,
    sent: &Message,
) -> Result<(), OutOfMemory>
    ensures { OnOk result (Keeps to sent.now kept.old way.now kept.new) }
{
    if !is_sending_of(alloc, &way.sending, to, sent)? {
        return Ok(());
    }
    kept.push(copied_way(alloc, way)?)?;
    Ok(())
}

/// The ways in which the node sends a message like this one to that point.
fn kept_ways(
    alloc: Global,
    at: &Incoming<'_>,
    to: PointCode,
    sent: &Message,
) -> Result<List<Way>, OutOfMemory>
    ensures conditions { IfOk result (λ kept. AreConditions at.now.plan.now at.now.node at.now.origin at.now.octets.now to sent.now
        (map (λ w. w.condition) kept)) }
    ensures those { IfOk result (AreThose to sent.now (ways at.now.plan.now at.now.node at.now.origin at.now.octets.now)) }
{
    let found = ways(alloc, at)?;
    let mut kept = List::new(alloc);
    for way in found.as_slice() {
        keep(alloc, &mut kept, way, to, sent)?;
    }
    Ok(kept)
}

/// What is given of a way.
fn told(alloc: Global, at: &Incoming<'_>, way: &Way) -> Result<Explanation, OutOfMemory>
    ensures { IfOk result (Tells at.now.plan.now at.now.node at.now.origin at.now.octets.now way.now) }
{
    let handling = handle(alloc, at, &way.condition)?;
    let condition = settled(alloc, &way.condition)?;
    Ok(Explanation {
        condition,
        handling,
    })
}

/// Puts what is given of a way at the end.
fn add_told(
    alloc: Global,
    at: &Incoming<'_>,
    way: &Way,
    found: &mut List<Explanation>,
) -> Result<(), OutOfMemory>
    ensures { OnOk result (AddsTold at.now.plan.now at.now.node at.now.origin at.now.octets.now way.now found.old found.new) }
{
    let explanation = told(alloc, at, way)?;
    found.push(explanation)?;
    Ok(())
}

/// Why the node may have sent a message to that point because of octets that arrived at it: each of the `ways` in which it does, once
/// and in their order. Their conditions are those under which it does: none if no marking lets it. The error is want of memory.
pub fn explain(
    alloc: Global,
    at: &Incoming<'_>,
    to: PointCode,
    sent: &Message,
) -> Result<List<Explanation>, OutOfMemory>
    // The node sends the message exactly under the markings that meet one of the conditions, and some marking meets each.
    ensures conditions { IfOk result (λ found. AreConditions at.now.plan.now at.now.node at.now.origin at.now.octets.now to sent.now
        (map (λ x. x.condition) found)) }
    // The conditions are those of the ways that send such a message, in the order of the ways, each in its shortest form.
    ensures shortest { IfOk result (λ found. AreShortest to sent.now (ways at.now.plan.now at.now.node at.now.origin at.now.octets.now)
        (map (λ x. x.condition) found)) }
    // Under each marking that meets the condition of one, the node handles the octets as this one says.
    ensures handled { IfOk result (All (IsHandled at.now.plan.now at.now.node at.now.origin at.now.octets.now)) }
{
    let kept = kept_ways(alloc, at, to, sent)?;
    let mut found = List::new(alloc);
    for way in kept.as_slice() {
        add_told(alloc, at, way, &mut found)?;
    }
    Ok(found)
}
