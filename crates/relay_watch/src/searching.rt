//! The search for the arrival that explains a message.
ghost use Rattle.std.specs.Prelude.{◌≡◌, nat_eq, true, false, IfOk};
ghost use Rattle.std.specs.Cmp.Lexicographic.{pointwise};
ghost use Rattle.std.specs.List.{All};
ghost use Rattle.relay_watch.specs.Arrivals.{IsWaiting, data_of};
ghost use Rattle.relay_watch.specs.Reasons.{IsNoReason, AreReasons, IsSearched};

use crate::arriving::data_of;
use crate::found::Found;
use crate::hints::Hints;
use crate::repeats::is_repeat;
use crate::sent::Sent;
use crate::waiting::Waiting;
use relay_ways::{Explanation, Incoming, explain};
use sccp_base::{List, OutOfMemory};
use sccp_message::Message;
use std::alloc::Global;

/// Whether a message has the data of an arrival.
pub(crate) fn has_data(arrival: &Waiting, sent: &Message) -> bool
    ensures { result ≡ pointwise nat_eq arrival.now.payload (data_of sent.now) }
{
    arrival.payload.as_slice() == data_of(sent)
}

/// Whether the relay does not send the message because of an arrival, since this one is at another relay or has other data. Each
/// message that the plan has a relay send has the data of the arrival, so this needs no look at the plan.
fn is_other(sent: &Sent<'_>, arrival: &Waiting) -> bool
    requires { IsWaiting arrival.now }
    ensures other { result ≡ true → IsNoReason sent.now.plan.now sent.now.node sent.now.to sent.now.message.now arrival.now }
    ensures here { result ≡ false → arrival.now.node ≡ sent.now.node }
{
    // The call ensures that the plan is sound, which the clause needs.
    let _nodes = sent.plan.nodes();
    if arrival.node != sent.node {
        return true;
    }
    !has_data(arrival, sent.message)
}

/// The ways in which the relay sends the message because of an arrival that waits there.
fn explained(
    alloc: Global,
    sent: &Sent<'_>,
    arrival: &Waiting,
) -> Result<List<Explanation>, OutOfMemory>
    requires { arrival.now.node ≡ sent.now.node }
    ensures { IfOk result (AreReasons sent.now.plan.now sent.now.node sent.now.to sent.now.message.now arrival.now) }
{
    let at = Incoming {
        plan: sent.plan,
        node: sent.node,
        origin: arrival.origin,
        octets: arrival.octets.as_slice(),
    };
    explain(alloc, &at, sent.to, sent.message)
}

/// The ways in which the relay sends the message because of a waiting arrival.
pub(crate) fn reasons(
    alloc: Global,
    sent: &Sent<'_>,
    arrival: &Waiting,
) -> Result<List<Explanation>, OutOfMemory>
    requires { IsWaiting arrival.now }
    ensures { IfOk result (AreReasons sent.now.plan.now sent.now.node sent.now.to sent.now.message.now arrival.now) }
{
    if is_other(sent, arrival) {
        return Ok(List::new(alloc));
    }
    explained(alloc, sent, arrival)
}

/// The same, if no earlier arrival is a reason. One that is the same as an earlier one is none either, and needs no look at the plan.
fn look(
    alloc: Global,
    sent: &Sent<'_>,
    earlier: &[Waiting],
    arrival: &Waiting,
    hints: &mut Hints,
) -> Result<List<Explanation>, OutOfMemory>
    requires waits { IsWaiting arrival.now }
    requires passed { All (IsNoReason sent.now.plan.now sent.now.node sent.now.to sent.now.message.now) earlier.now }
    ensures { IfOk result (AreReasons sent.now.plan.now sent.now.node sent.now.to sent.now.message.now arrival.now) }
{
    if is_other(sent, arrival) {
        return Ok(List::new(alloc));
    }
    if is_repeat(earlier, arrival, hints) {
        return Ok(List::new(alloc));
    }
    hints.note(earlier.len());
    explained(alloc, sent, arrival)
}

/// The first of the waiting arrivals because of which the relay sends the message.
pub(crate) fn search(
    alloc: Global,
    sent: &Sent<'_>,
    waiting: &[Waiting],
) -> Result<Option<Found>, OutOfMemory>
    requires { All IsWaiting waiting.now }
    ensures { IfOk result (IsSearched sent.now.plan.now waiting.now sent.now.node sent.now.to sent.now.message.now) }
{
    let mut hints = Hints::new();
    for (place, arrival) in waiting.iter().enumerate() {
        let ways = look(alloc, sent, &waiting[..place], arrival, &mut hints)?;
        if !ways.as_slice().is_empty() {
            return Ok(Some(Found {
                place,
                by: arrival.number,
                ways,
            }));
        }
    }
    Ok(None)
}
