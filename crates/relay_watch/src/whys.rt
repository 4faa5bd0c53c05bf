//! Why no arrival explains a message.
ghost use Rattle.std.specs.Prelude.{◌≡◌, IfOk};
ghost use Rattle.std.specs.List.{All};
ghost use Rattle.relay_watch.specs.Repeats.{IsReached, with_near};
ghost use Rattle.relay_watch.specs.Whys.{has_data, near_of, nearer, nearest, IsFoundAgain, IsOfWaiting, IsWhyAgain, IsWhy};

use crate::answered::Answered;
use crate::hints::Hints;
use crate::near::Near;
use crate::repeats::is_repeat;
use crate::searching::{has_data, reasons};
use crate::sent::Sent;
use crate::waiting::Waiting;
use crate::why::Why;
use relay_ways::{Incoming, why_not};
use sccp_base::OutOfMemory;
use std::alloc::Global;

/// Whether an arrival is at the relay and has the message's data.
fn is_near(sent: &Sent<'_>, arrival: &Waiting) -> bool
    ensures { result ≡ has_data sent.now.node sent.now.message.now arrival.now }
{
    if arrival.node != sent.node {
        return false;
    }
    has_data(arrival, sent.message)
}

/// The nearer of two, and of equal ones the first.
fn nearer(best: Option<Near>, next: Near) -> Option<Near>
    ensures { result ≡ nearer best next }
{
    match best {
        Some(best) => if best.reason.rank() < next.reason.rank() {
            Some(next)
        } else {
            Some(best)
        },
        None => Some(next),
    }
}

/// How near an arrival comes to explaining the message.
fn near_of(alloc: Global, sent: &Sent<'_>, arrival: &Waiting) -> Result<Near, OutOfMemory>
    ensures { IfOk result (λ n. n ≡ near_of sent.now.plan.now sent.now.node sent.now.to sent.now.message.now arrival.now) }
{
    let at = Incoming {
        plan: sent.plan,
        node: sent.node,
        origin: arrival.origin,
        octets: arrival.octets.as_slice(),
    };
    let reason = why_not(alloc, &at, sent.to, sent.message)?;
    Ok(Near {
        number: arrival.number,
        reason,
    })
}

/// The nearer one of what was found and of an arrival, if this is at the relay and has the message's data. One that is the same as an
/// earlier one comes no nearer, and needs no look at the plan.
fn with_near(
    alloc: Global,
    sent: &Sent<'_>,
    earlier: &[Waiting],
    arrival: &Waiting,
    best: Option<Near>,
    hints: &mut Hints,
) -> Result<Option<Near>, OutOfMemory>
    requires { All (IsReached sent.now.plan.now sent.now.node sent.now.to sent.now.message.now best) earlier.now }
    ensures { IfOk result (λ n. n ≡ with_near sent.now.plan.now sent.now.node sent.now.to sent.now.message.now best arrival.now) }
{
    if !is_near(sent, arrival) {
        return Ok(best);
    }
    if is_repeat(earlier, arrival, hints) {
        return Ok(best);
    }
    hints.note(earlier.len());
    Ok(nearer(best, near_of(alloc, sent, arrival)?))
}

/// The nearest of the arrivals at the relay that have the message's data.
#[tactic(auto, unfolding(crate::specs::Whys::nearest))]
fn nearest(alloc: Global, sent: &Sent<'_>, waiting: &[Waiting]) -> Result<Option<Near>, OutOfMemory>
    ensures { IfOk result (λ n. n ≡ nearest sent.now.plan.now waiting.now sent.now.node sent.now.to sent.now.message.now) }
{
    let mut best = None;
    let mut hints = Hints::new();
    for (place, arrival) in waiting.iter().enumerate() {
        best = with_near(alloc, sent, &waiting[..place], arrival, best, &mut hints)?;
    }
    Ok(best)
}

/// The number of the message that answered the first of the answered arrivals because of which the relay sends this message.
fn again(alloc: Global, sent: &Sent<'_>, answered: &[Answered]) -> Result<Option<u64>, OutOfMemory>
    requires { All IsOfWaiting answered.now }
    ensures { IfOk result (IsFoundAgain sent.now.plan.now answered.now sent.now.node sent.now.to sent.now.message.now) }
{
    for one in answered {
        let ways = reasons(alloc, sent, &one.arrival)?;
        if !ways.as_slice().is_empty() {
            return Ok(Some(one.by));
        }
    }
    Ok(None)
}

/// Why a message is unexplained, if no waiting arrival at the relay has its data.
fn why_again(alloc: Global, sent: &Sent<'_>, answered: &[Answered]) -> Result<Why, OutOfMemory>
    requires { All IsOfWaiting answered.now }
    ensures { IfOk result (IsWhyAgain sent.now.plan.now answered.now sent.now.node sent.now.to sent.now.message.now) }
{
    match again(alloc, sent, answered)? {
        Some(number) => Ok(Why::Again(number)),
        None => Ok(Why::NoArrival),
    }
}

/// Why a message is unexplained.
pub(crate) fn why(
    alloc: Global,
    sent: &Sent<'_>,
    waiting: &[Waiting],
    answered: &[Answered],
) -> Result<Why, OutOfMemory>
    requires { All IsOfWaiting answered.now }
    ensures { IfOk result (IsWhy sent.now.plan.now waiting.now answered.now sent.now.node sent.now.to sent.now.message.now) }
{
    match nearest(alloc, sent, waiting)? {
        Some(Near { number, reason }) => Ok(Why::By { number, reason }),
        None => why_again(alloc, sent, answered),
    }
}
