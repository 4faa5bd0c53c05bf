//! The outcome of one call from 1-0-1 over relays at 1-0-2 and 1-0-3, after that end offered something.
use super::{new_world, offer, point, settle};
use chain_call::{Call, Outcome, connect_in};
use chain_world::World;
use sccp_base::{Digits, Octets, Selector};
use std::alloc::Global;
use std::test::Fail;

/// CR, source 1, title 491710000012, hops 15. The call gives its own request the same reference.
const REQUEST: &str = "0101000002020D0B120600120494710100002111010F00";
/// DT1, destination 1, no more, data 41. It is of no connection, so a relay drops it.
const DATA: &str = "0601000000010141";

/// A call of these digits that is to carry the octet 41.
fn call_of(alloc: Global, digits: &str) -> Result<Call, Fail> {
    let mut octets = Octets::new(alloc);
    octets.push(0x41)?;
    Ok(Call {
        from: point("1-0-1")?,
        entry: point("1-0-2")?,
        selector: Selector::parse(b"4:0:1:4").ok_or("a selector")?,
        digits: Digits::parse(digits.as_bytes())?,
        ssn: Some(6),
        octets,
    })
}

/// The end at 1-0-1 offers this message `count` times to the first relay.
fn offer_all(alloc: Global, world: &mut World, octets: &str, count: u32) -> Result<(), Fail> {
    for _ in 0..count {
        if offer(alloc, world, "1-0-1", "1-0-2", octets)?.is_some() {
            return Err("an offer that is accepted")?;
        }
    }
    Ok(())
}

/// A world in which the end offered this message `count` times.
fn world_with(alloc: Global, octets: &str, count: u32) -> Result<World, Fail> {
    let mut world = new_world(alloc)?;
    match offer_all(alloc, &mut world, octets, count) {
        Ok(()) => Ok(world),
        Err(fault) => {
            drop(world);
            Err(fault)
        }
    }
}

fn outcome_name(outcome: &Outcome) -> &'static str {
    match outcome {
        Outcome::Unsettled => "unsettled",
        Outcome::Unanswered => "unanswered",
        Outcome::Refused(_) => "refused",
        Outcome::Opened(_, _, _) => "opened",
    }
}

/// The outcome of a call in a world.
fn called(alloc: Global, world: World, call: &Call) -> Result<&'static str, Fail> {
    let outcome = connect_in(alloc, world, call)?;
    let name = outcome_name(&outcome);
    drop(outcome);
    Ok(name)
}

/// The outcome of a call of these digits after `count` messages that wait on the first link.
fn called_behind(alloc: Global, count: u32, digits: &str) -> Result<&'static str, Fail> {
    let call = call_of(alloc, digits)?;
    let world = world_with(alloc, DATA, count)?;
    called(alloc, world, &call)
}

/// The outcome of a call from an end that requested a connection before, which nobody confirmed.
fn called_again(alloc: Global) -> Result<&'static str, Fail> {
    let call = call_of(alloc, "491710000012")?;
    let mut world = world_with(alloc, REQUEST, 1)?;
    match settle(alloc, &mut world, &mut String::new(alloc)) {
        Ok(()) => called(alloc, world, &call),
        Err(fault) => {
            drop(world);
            Err(fault)
        }
    }
}

/// The offer of the call's request is refused, since its reference was used before.
#[test]
fn a_used_reference_is_unanswered(rt: HostRuntime) -> Result<(), Fail> {
    assert_eq!(rt; called_again(rt.alloc())?, "unanswered");
    Ok(())
}

/// One message is offered, so 64 deliveries may be made. They include those of the messages before it, its own, and that of
/// the refusal.
#[test]
fn the_delivery_behind_the_last_is_not_made(rt: HostRuntime) -> Result<(), Fail> {
    assert_eq!(rt; called_behind(rt.alloc(), 0, "491710000012")?, "opened");
    assert_eq!(rt; called_behind(rt.alloc(), 62, "47")?, "refused");
    assert_eq!(rt; called_behind(rt.alloc(), 63, "47")?, "unsettled");
    Ok(())
}
