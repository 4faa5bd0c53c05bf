//! Puts what a relay sends on its links: all of it or nothing.
ghost use Rattle.std.specs.Prelude.{◌≡◌, ◌≤◌, ◌<◌, ℕ, List, [], ◌∷◌, length, map, IfOk, OnOk, OnErr};
ghost use Rattle.sccp_manage.specs.declared.sent.Sent.{Sent};
ghost use Rattle.sccp_couple.specs.Coupling.{coupled};
ghost use Rattle.sccp_couple.specs.Sending.{written_sent, HasShortParts};
ghost use Rattle.sccp_couple.specs.Ways.{event_of};
ghost use Rattle.couple_chain.specs.Relays.{relay_after};
ghost use Rattle.chain_world.specs.Links.{octets_on, gone_from};
ghost use Rattle.chain_world.specs.Answering.{with_octets, in_order, places};

use crate::link::{Link, put, take_back};
use couple_chain::{Prepared, Relay};
use plan_model::Plan;
use sccp_base::{List as Listed, Marking, OutOfMemory, PointCode};
use sccp_manage::Sent as Sending;
use sccp_message::Message;
use std::alloc::Global;

/// What a relay sends for one message: at most two messages.
#[derive(Drop)]
pub(crate) enum Answers {
    Nothing,
    One(Sending),
    Two(Sending, Sending),
}

/// The points on whose links answers were put.
#[derive(Drop)]
pub(crate) enum Placed {
    Nothing,
    One(PointCode),
    Two(PointCode, PointCode),
}

/// The answers, in the order in which they are sent.
fn answers_of(sent: Listed<Sending>) -> Answers
    requires { length sent ≤ 2 }
    ensures { sent ≡ in_order result }
{
    let mut sent = sent.into_vec();
    match sent.pop() {
        None => Answers::Nothing,
        Some(last) => match sent.pop() {
            None => Answers::One(last),
            Some(first) => Answers::Two(first, last),
        },
    }
}

/// Puts two messages on the links of a point, or none if memory is lacking.
fn put_two(
    alloc: Global,
    links: &mut Vec<Link>,
    from: PointCode,
    first: Sending,
    second: Sending,
) -> Result<(), OutOfMemory>
    ensures ok { OnOk result ((a b : ℕ) → octets_on links.new.items a b
        ≡ with_octets from (first ∷ second ∷ []) (octets_on links.old.items) a b) }
    ensures err { OnErr result ((a b : ℕ) → octets_on links.new.items a b ≡ octets_on links.old.items a b) }
    ensures gone { (a b : ℕ) → gone_from links.new.items a b ≡ gone_from links.old.items a b }
{
    let to = first.to;
    put(alloc, links, from, to, first.octets)?;
    match put(alloc, links, from, second.to, second.octets) {
        Ok(()) => Ok(()),
        Err(fault) => {
            take_back(links, from, to);
            Err(fault)
        }
    }
}

/// Puts one message on a link of a point.
fn put_one(
    alloc: Global,
    links: &mut Vec<Link>,
    from: PointCode,
    only: Sending,
) -> Result<(), OutOfMemory>
    ensures ok { OnOk result ((a b : ℕ) → octets_on links.new.items a b ≡ with_octets from (only ∷ []) (octets_on links.old.items) a b) }
    ensures err { OnErr result ((a b : ℕ) → octets_on links.new.items a b ≡ octets_on links.old.items a b) }
    ensures gone { (a b : ℕ) → gone_from links.new.items a b ≡ gone_from links.old.items a b }
{
    put(alloc, links, from, only.to, only.octets)
}

/// Puts what is sent on the links of a point.
fn put_all(
    alloc: Global,
    links: &mut Vec<Link>,
    from: PointCode,
    sent: Listed<Sending>,
) -> Result<Placed, OutOfMemory>
    requires { length sent ≤ 2 }
    ensures ok { OnOk result ((a b : ℕ) → octets_on links.new.items a b ≡ with_octets from sent (octets_on links.old.items) a b) }
    ensures placed { IfOk result (λ p. places p ≡ map (λ (s : Sent). s.to) sent) }
    ensures err { OnErr result ((a b : ℕ) → octets_on links.new.items a b ≡ octets_on links.old.items a b) }
    ensures gone { (a b : ℕ) → gone_from links.new.items a b ≡ gone_from links.old.items a b }
{
    match answers_of(sent) {
        Answers::Nothing => Ok(Placed::Nothing),
        Answers::One(only) => {
            let to = only.to;
            put_one(alloc, links, from, only)?;
            Ok(Placed::One(to))
        }
        Answers::Two(first, second) => {
            let near = first.to;
            let far = second.to;
            put_two(alloc, links, from, first, second)?;
            Ok(Placed::Two(near, far))
        }
    }
}

/// Takes back what was put on the links of a point, the last message first.
fn take_all(links: &mut Vec<Link>, from: PointCode, placed: Placed)
    ensures octets { (sent : List Sent) (before : ℕ → ℕ → List (List ℕ)) → places placed ≡ map (λ (s : Sent). s.to) sent
        → ((a b : ℕ) → octets_on links.old.items a b ≡ with_octets from sent before a b) → (a b : ℕ)
        → octets_on links.new.items a b ≡ before a b }
    ensures gone { (a b : ℕ) → gone_from links.new.items a b ≡ gone_from links.old.items a b }
{
    match placed {
        Placed::Nothing => {}
        Placed::One(only) => take_back(links, from, only),
        Placed::Two(first, second) => {
            take_back(links, from, second);
            take_back(links, from, first);
        }
    }
}

/// The relay at a point takes a message, and what it sends is put on its links. The only error is lack of memory; it leaves
/// all as it was.
pub(crate) fn take_in(
    alloc: Global,
    plan: &Plan,
    relay: &mut Relay,
    links: &mut Vec<Link>,
    origin: PointCode,
    at: PointCode,
    message: &Message,
) -> Result<(), OutOfMemory>
    requires node { relay.old.node < length plan.now.nodes }
    requires short { HasShortParts message.now }
    ensures relay { OnOk result (relay.new ≡ relay_after relay.old (event_of plan.now relay.old.node [] origin message.now)) }
    ensures octets { OnOk result ((a b : ℕ) → octets_on links.new.items a b
        ≡ with_octets at (map written_sent (coupled relay.old.sections (event_of plan.now relay.old.node [] origin message.now)).sent)
        (octets_on links.old.items) a b) }
    ensures err_relay { OnErr result (relay.new ≡ relay.old) }
    ensures err_octets { OnErr result ((a b : ℕ) → octets_on links.new.items a b ≡ octets_on links.old.items a b) }
    ensures gone { (a b : ℕ) → gone_from links.new.items a b ≡ gone_from links.old.items a b }
{
    let marking = Marking::new(alloc);
    let Prepared { exchange, sent } = relay.prepare(plan, &marking, origin, message)?;
    let placed = put_all(alloc, links, at, sent)?;
    match relay.commit(exchange, origin, message) {
        Ok(()) => Ok(()),
        Err(fault) => {
            take_all(links, at, placed);
            Err(fault)
        }
    }
}
