//! What becomes of a message that arrives at a relay.
ghost use Rattle.std.specs.Prelude.{◌≡◌, ◌<◌, ◌==◌, ℕ, List, Option, length, IfOk, IfNone, IsSome, Some, false, [], ◌∷◌, option_map};
ghost use Rattle.std.specs.List.{list_any};
ghost use Rattle.sccp_address.specs.declared.address.Address.{Address};
ghost use Rattle.sccp_base.specs.declared.mark.Mark.{Mark};
ghost use Rattle.sccp_message.specs.declared.message.Message.{Message};
ghost use Rattle.sccp_message.specs.Unitdata.{called_of};
ghost use Rattle.plan_model.specs.Routes.{StaysIn};
ghost use Rattle.sccp_scrc.specs.declared.service.Service.{Service};
ghost use Rattle.sccp_scrc.specs.Next.{onward_address, next_place};
ghost use Rattle.sccp_scrc.specs.Arriving.{by_called, subsystems_of, at_subsystem, after_step, at_title, is_last_hop, arrival};
ghost use Rattle.sccp_scrc.specs.Passing.{IsStepped};
ghost use Rattle.sccp_scrc.specs.Outcomes.{IsRelayed, IsEnded, IsLocal, IsReturned};

use crate::arrival::Arrival;
use crate::here::Here;
use crate::leaving::{place, relay};
use crate::returning::returned;
use crate::rewriting::{address_after, spot_in};
use plan_model::{Hop, Plan, Step, step};
use sccp_address::Address;
use sccp_base::{List, Mark, Marking, OutOfMemory, PointCode};
use sccp_message::{DecodeFault, Message, decode};
use std::alloc::Global;

/// Whether a subsystem is one of the node's.
fn is_own(plan: &Plan, node: u8, ssn: u8) -> bool
    requires { node < length plan.now.nodes }
    ensures { result ≡ list_any (λ own. own == ssn) (subsystems_of plan.now node) }
{
    plan.nodes().as_slice()[usize::from(node)].is_equipped(ssn)
}

fn one_mark(alloc: Global, mark: Mark) -> Result<List<Mark>, OutOfMemory>
    ensures { IfOk result (λ marks. marks ≡ mark ∷ []) }
{
    let mut marks = List::new(alloc);
    marks.push(mark)?;
    Ok(marks)
}

/// What becomes of a message that is routed on its subsystem number.
fn at_subsystem(
    alloc: Global,
    here: &Here<'_>,
    message: Message,
    ssn: Option<u8>,
) -> Result<Arrival, OutOfMemory>
    ensures { IfOk result (λ a. a ≡ at_subsystem here.now.plan.now here.now.node here.now.marking.now here.now.origin message ssn) }
{
    let Some(ssn) = ssn else {
        return returned(alloc, here, message, 4, List::new(alloc));
    };
    if ssn == 1 {
        return Ok(Arrival::Management(message));
    }
    if !is_own(here.plan, here.node, ssn) {
        return returned(alloc, here, message, 4, List::new(alloc));
    }
    let own = here.plan.point_of(here.node);
    if here.marking.holds(Mark::Subsystem(own, ssn)) {
        return match one_mark(alloc, Mark::Subsystem(own, ssn)) {
            Ok(marks) => returned(alloc, here, message, 3, marks),
            Err(fault) => {
                drop(message);
                Err(fault)
            }
        };
    }
    Ok(Arrival::Local { ssn, message })
}

/// What a step makes of the message, with the called address that it goes on with.
fn after(
    alloc: Global,
    here: &Here<'_>,
    message: Message,
    to: Option<Address>,
    step: Step,
) -> Result<Arrival, OutOfMemory>
    requires called { IsSome (called_of message) }
    requires stays { StaysIn here.now.plan.now step }
    requires to { IfNone to (next_place step ≡ false) }
    ensures { (address : Address) → called_of message ≡ Some address → to ≡ onward_address step address
        → IfOk result (λ a. a ≡ after_step here.now.plan.now here.now.node here.now.marking.now here.now.origin message address step) }
{
    match step {
        Step::Sent { next, .. } => match to {
            Some(to) => relay(alloc, here, here.plan.point_of(next.node), message, to),
            None => unreachable!(),
        },
        Step::Ended { pc, ssn, .. } => match to {
            Some(to) => place(alloc, here, pc, ssn, message, to),
            None => unreachable!(),
        },
        Step::Blocked { cause, marks } => returned(alloc, here, message, cause, marks),
        Step::NoRow { cause } => returned(alloc, here, message, cause, List::new(alloc)),
        Step::Overgrown => returned(alloc, here, message, 9, List::new(alloc)),
    }
}

/// Whether the hop counter is used up by one more translation. A message without a counter goes on.
pub fn is_last_hop(hops: Option<u8>) -> bool
    ensures { result ≡ is_last_hop hops }
{
    match hops {
        Some(hops) => hops <= 1,
        None => false,
    }
}

/// What becomes of a message that is routed on its global title: first the hop counter is tested.
fn at_title(alloc: Global, here: &Here<'_>, message: Message) -> Result<Arrival, OutOfMemory>
    requires called { IsSome (called_of message) }
    ensures { (address : Address) → called_of message ≡ Some address
        → IfOk result (λ a. a ≡ at_title here.now.plan.now here.now.node here.now.marking.now here.now.origin message address) }
{
    if is_last_hop(message.hops()) {
        return returned(alloc, here, message, 12, List::new(alloc));
    }
    match spot_in(here.node, &message) {
        None => returned(alloc, here, message, 0, List::new(alloc)),
        Some(spot) => {
            match step(alloc, here.plan, &spot, here.marking) {
                Ok(step) => {
                    let to = address_after(&message, &spot, &step);
                    after(alloc, here, message, to, step)
                }
                Err(fault) => {
                    drop(message);
                    Err(fault)
                }
            }
        }
    }
}

/// How a message is routed: whether on SSN, and its SSN. `None` for a connection-oriented one, which has no called address.
pub(crate) fn routing(message: &Message) -> Option<(bool, Option<u8>)>
    ensures { result ≡ option_map (λ a. (a.by_ssn, a.ssn)) (called_of message.now) }
{
    match message.called() {
        Some(address) => Some((address.by_ssn, address.ssn)),
        None => None,
    }
}

/// What becomes of a message that arrives here (Q.714 section 2). `arrive` gives the same for its octets. The error is want of
/// memory.
pub fn arrive_message(
    alloc: Global,
    here: &Here<'_>,
    message: Message,
) -> Result<Arrival, OutOfMemory>
    ensures { IfOk result (λ a. a ≡ by_called here.now.plan.now here.now.node here.now.marking.now here.now.origin message
        (called_of message)) }
{
    match routing(&message) {
        None => Ok(Arrival::Connection(message)),
        Some((by_ssn, ssn)) => {
            if by_ssn {
                at_subsystem(alloc, here, message, ssn)
            } else {
                at_title(alloc, here, message)
            }
        }
    }
}

/// The same for a message that `pass_on` left as it is: the hop that was looked up is not looked up again.
pub fn arrive_stepped(
    alloc: Global,
    here: &Here<'_>,
    message: Message,
    hop: Hop,
) -> Result<Arrival, OutOfMemory>
    requires stepped { IsStepped here.now.plan.now here.now.node here.now.marking.now
        (λ from. by_called here.now.plan.now here.now.node here.now.marking.now from message (called_of message)) message hop }
    ensures { IfOk result (λ a. a ≡ by_called here.now.plan.now here.now.node here.now.marking.now here.now.origin message
        (called_of message)) }
{
    let Hop { spot, step } = hop;
    let to = address_after(&message, &spot, &step);
    after(alloc, here, message, to, step)
}

/// What becomes of octets.
fn of_octets(alloc: Global, here: &Here<'_>, octets: &[u8]) -> Result<Arrival, OutOfMemory>
    ensures { IfOk result (λ a. a ≡ arrival here.now.plan.now here.now.node here.now.marking.now here.now.origin octets.now) }
{
    match decode(alloc, octets) {
        Ok(message) => arrive_message(alloc, here, message),
        Err(DecodeFault::OutOfMemory) => Err(OutOfMemory),
        Err(fault) => Ok(Arrival::Undecodable(fault)),
    }
}

/// What becomes of octets that arrive from the point `origin` (Q.714 section 2). They arrive at the node at this place of
/// the plan, which holds the marking. The error is want of memory.
pub fn arrive(
    alloc: Global,
    plan: &Plan,
    node: u8,
    marking: &Marking,
    origin: PointCode,
    octets: &[u8],
) -> Result<Arrival, OutOfMemory>
    requires node { node < length plan.now.nodes }
    ensures exact { IfOk result (λ a. a ≡ arrival plan.now node marking.now origin octets.now) }
    // A relayed message goes to another relay of the plan, with nothing changed but its called address and hop counter.
    ensures relayed { IfOk result (λ a. (pc : ℕ) (sent : List ℕ) → a ≡ Arrival.Relayed pc sent
        → IsRelayed plan.now node octets.now pc sent) }
    // One with a destination goes to a point of which no mark is held; again nothing else is changed.
    ensures ended { IfOk result (λ a. (pc ssn : ℕ) (sent : List ℕ) → a ≡ Arrival.Ended pc ssn sent
        → IsEnded plan.now node marking.now octets.now pc ssn sent) }
    // One for the node itself is for one of its subsystems that is not prohibited.
    ensures local { IfOk result (λ a. (ssn : ℕ) (new : Message) → a ≡ Arrival.Local ssn new
        → IsLocal plan.now node marking.now octets.now ssn new) }
    // A return names marks that are held, and its cause is that of the last one.
    ensures names { IfOk result (λ a. (cause : ℕ) (marks : List Mark) (service : Option Service) → a ≡ Arrival.Returned cause marks service
        → IsReturned marking.now cause marks) }
{
    // The call ensures that the plan is sound, which the clauses need.
    let _nodes = plan.nodes();
    let here = Here {
        plan,
        node,
        marking,
        origin,
    };
    of_octets(alloc, &here, octets)
}
