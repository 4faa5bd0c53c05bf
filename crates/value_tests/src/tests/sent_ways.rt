//! What a relay can send because of an arrival, over all markings.
use super::plans::plan_of;
use plan_model::Plan;
use relay_ways::{Explanation, Incoming, explain, is_alike, ways};
use sample_plans::BACKED;
use sccp_base::{List, PointCode};
use sccp_message::{Message, decode};
use std::alloc::Global;
use std::test::Fail;

/// A UDT for 491710000012, from subsystem 8 at 1-0-1. It asks for no return.
const ARRIVAL: &str = "0900030E120B120600120494710100002104430108080101";

/// The same with return on error.
const ASKING: &str = "0980030E120B120600120494710100002104430108080101";

/// What subsystem 6 receives: it routes on the subsystem number.
const SENT: &str = "0900030E120B520600120494710100002104430108080101";

/// The same with the point code 2-0-1 and without the title.
const SENT_WITH_POINT: &str = "090003070B044301100604430108080101";

/// The number of ways of octets from 1-0-1 at the plan's first relay.
fn count_ways(alloc: Global, plan: &Plan, octets: &[u8]) -> Option<usize> {
    let origin = PointCode::new(2049)?;
    if plan.nodes().as_slice().is_empty() {
        return None;
    }
    let at = Incoming {
        plan,
        node: 0,
        origin,
        octets,
    };
    match ways(alloc, &at) {
        Ok(found) => Some(found.as_slice().len()),
        Err(_) => None,
    }
}

/// Either of two targets is taken. If the sender asks, a return has a cause for each mark of the last target.
#[test]
fn a_row_of_two_targets_has_two_ways_and_three_returns(rt: HostRuntime) -> Result<(), Fail> {
    let plain = hex::decode(rt.alloc(), ARRIVAL)?;
    let asking = hex::decode(rt.alloc(), ASKING)?;
    let plan = plan_of(rt.alloc(), BACKED)?;
    let two = count_ways(rt.alloc(), &plan, &plain);
    let five = count_ways(rt.alloc(), &plan, &asking);
    drop(plan);
    assert_eq!(rt; two, Some(2));
    assert_eq!(rt; five, Some(5));
    Ok(())
}

/// How many lists and how many free marks the only way has; `None` if there is none, or another number.
fn sizes_of_only(found: &List<Explanation>) -> Option<(usize, usize)> {
    match found.as_slice() {
        [only] => Some((
            only.condition.one_of.as_slice().len(),
            only.condition.none_of.as_slice().len(),
        )),
        _ => None,
    }
}

/// The same of the ways that explain a message from the plan's first relay.
fn sizes_of(
    alloc: Global,
    plan: &Plan,
    octets: &[u8],
    to: PointCode,
    sent: &Message,
) -> Option<(usize, usize)> {
    let origin = PointCode::new(2049)?;
    if plan.nodes().as_slice().is_empty() {
        return None;
    }
    let at = Incoming {
        plan,
        node: 0,
        origin,
        octets,
    };
    match explain(alloc, &at, to, sent) {
        Ok(found) => sizes_of_only(&found),
        Err(_) => None,
    }
}

/// The same of octets.
fn explained(
    alloc: Global,
    plan: &Plan,
    octets: &[u8],
    to: u16,
    sent: &[u8],
) -> Option<(usize, usize)> {
    let to = PointCode::new(to)?;
    match decode(alloc, sent) {
        Ok(sent) => {
            let sizes = sizes_of(alloc, plan, octets, to, &sent);
            drop(sent);
            sizes
        }
        Err(_) => None,
    }
}

/// The first target is taken if nothing of it is held, the backup if a mark of the first one is held. Nothing goes to 2-0-3.
#[test]
fn a_message_is_explained_by_what_is_held(rt: HostRuntime) -> Result<(), Fail> {
    let arrival = hex::decode(rt.alloc(), ARRIVAL)?;
    let sent = hex::decode(rt.alloc(), SENT)?;
    let plan = plan_of(rt.alloc(), BACKED)?;
    let first = explained(rt.alloc(), &plan, &arrival, 4097, &sent);
    let backup = explained(rt.alloc(), &plan, &arrival, 4098, &sent);
    let other = explained(rt.alloc(), &plan, &arrival, 4099, &sent);
    drop(plan);
    assert_eq!(rt; first, Some((0, 3)));
    assert_eq!(rt; backup, Some((1, 3)));
    assert_eq!(rt; other, None);
    Ok(())
}

/// Whether octets say a message that counts as the expected one, on the way to a point.
fn counts_as(alloc: Global, to: u16, expected: &Message, sent: &[u8]) -> Option<bool> {
    let to = PointCode::new(to)?;
    match decode(alloc, sent) {
        Ok(sent) => {
            let alike = is_alike(to, expected, &sent);
            drop(sent);
            Some(alike)
        }
        Err(_) => None,
    }
}

/// The same, with the expected message as octets.
fn are_alike(alloc: Global, to: u16, expected: &[u8], sent: &[u8]) -> Option<bool> {
    match decode(alloc, expected) {
        Ok(expected) => {
            let alike = counts_as(alloc, to, &expected, sent);
            drop(expected);
            alike
        }
        Err(_) => None,
    }
}

/// The point code may be that of the point, and the title may be left out.
#[test]
fn the_point_and_the_title_are_the_relays_choice(rt: HostRuntime) -> Result<(), Fail> {
    let sent = hex::decode(rt.alloc(), SENT)?;
    let pointed = hex::decode(rt.alloc(), SENT_WITH_POINT)?;
    assert_eq!(rt; are_alike(rt.alloc(), 4097, &sent, &pointed), Some(true));
    assert_eq!(rt; are_alike(rt.alloc(), 4098, &sent, &pointed), Some(false));
    Ok(())
}
