//! The plan that is made from a number.
ghost use Rattle.std.specs.Prelude.{◌≡◌, ◌<◌, ◌++◌, [], ◌∷◌, map, codes, decimal, IfOk, All};
ghost use Rattle.std.specs.List.{range_with_len};
ghost use Rattle.plan_model.specs.Network.{IsNode, IsPlan};
ghost use Rattle.made_load.specs.Relays.{cover, end_point, load_plan, relay, relays};

use crate::rows::{end_point, no_digits, relay_point, selector, table};
use plan_model::{Cover, Node, Plan};
use sccp_base::{List, Name, OutOfMemory, PointCode};
use std::alloc::Global;

/// The name of a relay, from 0 to 7.
fn name(place: u8) -> Name
    requires { place < 8 }
    ensures { result ≡ codes "n" ++ decimal place }
{
    match Name::parse(&[b'n', b'0' + place]) {
        Some(name) => name,
        None => unreachable!(),
    }
}

/// A relay with its table, without subsystems and concerned points.
fn relay(alloc: Global, number: u32, place: u8) -> Result<Node, OutOfMemory>
    requires { place < 8 }
    ensures { IfOk result (λ node. node ≡ relay number place) }
{
    Ok(Node {
        name: name(place),
        pc: relay_point(place),
        subsystems: List::new(alloc),
        concerned: List::new(alloc),
        table: table(alloc, number, place)?,
    })
}

/// The eight relays.
fn relays(alloc: Global, number: u32) -> Result<List<Node>, OutOfMemory>
    ensures { IfOk result (λ nodes. nodes ≡ relays number) }
{
    let mut nodes = List::new(alloc);
    for place in 0..8 {
        nodes.push(relay(alloc, number, place)?)?;
    }
    Ok(nodes)
}

/// The destinations of all titles.
fn allowed(alloc: Global) -> Result<List<(PointCode, u8)>, OutOfMemory>
    ensures { IfOk result (λ places. places ≡ map (λ d. (end_point d, 6)) (range_with_len 0 10)) }
{
    let mut places = List::new(alloc);
    for digit in 0..10 {
        places.push((end_point(digit), 6))?;
    }
    Ok(places)
}

/// The cover of all titles of ten digits at the first relay.
fn cover(alloc: Global) -> Result<Cover, OutOfMemory>
    ensures { IfOk result (λ c. c ≡ cover) }
{
    Ok(Cover {
        node: 0,
        selector: selector(),
        ssn: 6,
        prefix: no_digits(),
        least: 10,
        most: 10,
        allowed: allowed(alloc)?,
    })
}

fn covers(alloc: Global) -> Result<List<Cover>, OutOfMemory>
    ensures { IfOk result (λ cs. cs ≡ cover ∷ []) }
{
    let mut covers = List::new(alloc);
    covers.push(cover(alloc)?)?;
    Ok(covers)
}

/// The plan of a number: eight relays, and a cover of all titles of ten digits at the first one. Each relay hands titles on
/// to one of the next three or, if that one is closed, sends them to their destinations itself. The error is want of memory.
pub fn load_plan(alloc: Global, number: u32) -> Result<Plan, OutOfMemory>
    ensures plan { IfOk result (λ plan. plan ≡ load_plan number) }
    ensures sound { IfOk result IsPlan }
{
    let nodes = relays(alloc, number)?;
    let covers = covers(alloc)?;
    match Plan::build(nodes, covers) {
        Ok(plan) => Ok(plan),
        Err(_) => unreachable!(),
    }
}
