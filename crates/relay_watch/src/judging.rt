//! What is said of a message, and what waits afterwards.
ghost use Rattle.std.specs.Prelude.{◌≡◌, ◌<◌, ◌≤◌, true, length, IfOk, IfSome, OnOk, OnErr};
ghost use Rattle.std.specs.List.{All};
ghost use Rattle.sccp_message.specs.Reading.{reading};
ghost use Rattle.sccp_scrc.specs.Passing.{ReadsAgain};
ghost use Rattle.relay_watch.specs.Arrivals.{source, IsWaiting, AreWaiting};
ghost use Rattle.relay_watch.specs.Judging.{IsFoundAt, IsSaid, IsSaidAt};
ghost use Rattle.relay_watch.specs.Keepings.{HasRoom, kept_in};
ghost use Rattle.relay_watch.specs.Kept.{named_in, explained_in, next_of, number_of};
ghost use Rattle.relay_watch.specs.Settling.{IsSettled};
ghost use Rattle.relay_watch.specs.Watching.{IsWatched};
ghost use Rattle.relay_watch.specs.Whys.{IsOfWaiting, AreAnswered};

use crate::answered::Answered;
use crate::arriving::{begins, is_management};
use crate::captured::Captured;
use crate::counting::{
    count_arrived, count_sent, count_unanswered, is_unexplained, next_of, one_more_if,
};
use crate::event::Event;
use crate::found::Found;
use crate::gone::Gone;
use crate::judged::Judged;
use crate::keeping::{Keeping, begin, end, name, remember, room, unanswered_if, unname};
use crate::line::Line;
use crate::next::Next;
use crate::relays::relay_at;
use crate::searching::search;
use crate::sent::Sent;
use crate::verdict::Verdict;
use crate::verdicts::{place_of, verdict_by};
use crate::waiting::Waiting;
use crate::why::Why;
use plan_model::Plan;
use sccp_base::OutOfMemory;
use sccp_message::{DecodeFault, Message, decode};
use std::alloc::Global;

/// The arrival that explains a message, if a relay of the plan sent it.
fn reason_of(
    alloc: Global,
    captured: &Captured<'_>,
    waiting: &[Waiting],
) -> Result<Option<Found>, OutOfMemory>
    requires { All IsWaiting waiting.now }
    ensures { IfOk result (λ found. IsFoundAt captured.now.plan.now waiting.now captured.now.event.now captured.now.message.now found
        (source captured.now.plan.now captured.now.event.now)) }
{
    match relay_at(captured.plan, captured.event.origin) {
        Some(node) => {
            let sent = Sent {
                plan: captured.plan,
                node,
                to: captured.event.destination,
                message: captured.message,
            };
            search(alloc, &sent, waiting)
        }
        None => Ok(None),
    }
}

/// What is said of a message with a called address.
fn addressed(
    alloc: Global,
    captured: &Captured<'_>,
    waiting: &[Waiting],
    answered: &[Answered],
) -> Result<Judged, OutOfMemory>
    requires waiting { All IsWaiting waiting.now }
    requires answered { All IsOfWaiting answered.now }
    requires reads { reading captured.now.event.now.octets ≡ Ok captured.now.message.now }
    requires again { ReadsAgain captured.now.message.now }
    ensures said { IfOk result (IsSaidAt captured.now.plan.now waiting.now answered.now captured.now.event.now captured.now.message.now
        captured.now.address.now) }
    ensures kept { IfOk result (λ j. IfSome j.begins IsWaiting) }
{
    let new = begins(
        alloc,
        captured.plan,
        captured.event,
        captured.message,
        captured.address,
    )?;
    let found = reason_of(alloc, captured, waiting)?;
    let place = place_of(&found);
    let verdict = verdict_by(alloc, captured, waiting, answered, found)?;
    Ok(Judged {
        verdict,
        place,
        begins: new,
        other: is_management(captured.address),
    })
}

/// A verdict that changes nothing but counts.
fn only(verdict: Verdict) -> Judged
    ensures verdict { result.verdict ≡ verdict }
    ensures place { result.place ≡ None }
    ensures begins { result.begins ≡ None }
    ensures other { result.other ≡ true }
{
    Judged {
        verdict,
        place: None,
        begins: None,
        other: true,
    }
}

/// What is said of a message.
fn decoded(
    alloc: Global,
    plan: &Plan,
    waiting: &[Waiting],
    answered: &[Answered],
    event: &Event,
    message: &Message,
) -> Result<Judged, OutOfMemory>
    requires waiting { All IsWaiting waiting.now }
    requires answered { All IsOfWaiting answered.now }
    requires reads { reading event.now.octets ≡ Ok message.now }
    requires again { ReadsAgain message.now }
    ensures said { IfOk result (IsSaid plan.now waiting.now answered.now event.now (Ok message.now)) }
    ensures kept { IfOk result (λ j. IfSome j.begins IsWaiting) }
{
    match message.called() {
        Some(address) => {
            let captured = Captured {
                plan,
                event,
                message,
                address,
            };
            addressed(alloc, &captured, waiting, answered)
        }
        None => Ok(only(Verdict::Connection)),
    }
}

/// What is said of an event.
fn said(
    alloc: Global,
    plan: &Plan,
    waiting: &[Waiting],
    answered: &[Answered],
    event: &Event,
) -> Result<Judged, OutOfMemory>
    requires waiting { All IsWaiting waiting.now }
    requires answered { All IsOfWaiting answered.now }
    ensures said { IfOk result (IsSaid plan.now waiting.now answered.now event.now (reading event.now.octets)) }
    ensures kept { IfOk result (λ j. IfSome j.begins IsWaiting) }
{
    match decode(alloc, event.octets.as_slice()) {
        Ok(message) => {
            let judged = decoded(alloc, plan, waiting, answered, event, &message);
            drop(message);
            judged
        }
        Err(DecodeFault::OutOfMemory) => Err(OutOfMemory),
        Err(fault) => Ok(only(Verdict::Undecodable(fault))),
    }
}

/// The number of the arrival that a verdict names without being explained by it.
fn named_in(verdict: &Verdict) -> Option<u64>
    ensures { result ≡ named_in verdict.now }
{
    match verdict {
        Verdict::Unexplained(Why::By { number, .. }) => Some(*number),
        _ => None,
    }
}

/// The number of the arrival that explains.
fn explained_in(verdict: &Verdict) -> Option<u64>
    ensures { result ≡ explained_in verdict.now }
{
    match verdict {
        Verdict::Explained { by, .. } => Some(*by),
        _ => None,
    }
}

/// The number of the arrival that is given up.
fn number_of(given: &Option<Waiting>) -> Option<u64>
    ensures { result ≡ number_of given.now }
{
    match given {
        Some(given) => Some(given.number),
        None => None,
    }
}

/// Makes room for all that may come.
fn make_room(kept: &mut Keeping) -> Result<(), OutOfMemory>
    ensures waiting { kept.new.waiting.items ≡ kept.old.waiting.items }
    ensures answered { kept.new.answered.items ≡ kept.old.answered.items }
    ensures named { kept.new.named.items ≡ kept.old.named.items }
    ensures relays { kept.new.relays.items ≡ kept.old.relays.items }
    ensures events { kept.new.events ≡ kept.old.events }
    ensures unexplained { kept.new.unexplained ≡ kept.old.unexplained }
    ensures room { OnOk result (HasRoom kept.new) }
{
    room(&mut kept.waiting)?;
    room(&mut kept.answered)?;
    room(&mut kept.named)?;
    Ok(())
}

/// The line of what is said of an event, and what is kept afterwards. All memory is there.
fn settled(
    kept: &mut Keeping,
    plan: &Plan,
    event: &Event,
    judged: Judged,
    next: Option<Next>,
) -> Line
    requires inside { IfSome judged.place (λ p. p < length kept.old.waiting.items) }
    requires few { length kept.old.answered.items ≤ 1024 }
    requires room { HasRoom kept.old }
    requires next { next ≡ next_of kept.old.relays.items (source plan.now event.now) judged.verdict }
    ensures { IsSettled plan.now event.now (kept_in kept.old) judged result (kept_in kept.new) }
{
    let Judged {
        verdict,
        place,
        begins,
        other,
    } = judged;
    begin(&mut kept.waiting, begins);
    let Gone { found, given_up } = end(&mut kept.waiting, place);
    name(&mut kept.named, named_in(&verdict));
    let unanswered = unanswered_if(kept.named.as_slice(), &given_up);
    unname(&mut kept.named, explained_in(&verdict));
    unname(&mut kept.named, number_of(&given_up));
    remember(&mut kept.answered, found, event.number);
    let relays = kept.relays.as_mut_slice();
    count_sent(relays, relay_at(plan, event.origin), &verdict, next);
    count_arrived(relays, relay_at(plan, event.destination), other);
    count_unanswered(relays, unanswered);
    kept.events = one_more_if(true, kept.events);
    kept.unexplained = one_more_if(is_unexplained(&verdict), kept.unexplained);
    Line {
        verdict,
        given_up,
        unanswered,
    }
}

/// Judges an event.
pub(crate) fn step(
    alloc: Global,
    kept: &mut Keeping,
    plan: &Plan,
    event: &Event,
) -> Result<Line, OutOfMemory>
    requires waiting { AreWaiting kept.old.waiting.items }
    requires answered { AreAnswered kept.old.answered.items }
    ensures watched { IfOk result (λ line. IsWatched plan.now (kept_in kept.old) event.now line (kept_in kept.new)) }
    ensures err { OnErr result (kept_in kept.new ≡ kept_in kept.old) }
    ensures waiting { AreWaiting kept.new.waiting.items }
    ensures answered { AreAnswered kept.new.answered.items }
{
    let judged = said(
        alloc,
        plan,
        kept.waiting.as_slice(),
        kept.answered.as_slice(),
        event,
    )?;
    let next = next_of(
        alloc,
        kept.relays.as_slice(),
        relay_at(plan, event.origin),
        &judged.verdict,
    )?;
    make_room(kept)?;
    Ok(settled(kept, plan, event, judged, next))
}
