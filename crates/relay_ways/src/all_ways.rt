//! What a node can send because of an arrival.
ghost use Rattle.std.specs.Prelude.{◌≡◌, ◌<◌, ◌∷◌, ℕ, [], true, None, length, IfOk, OnOk, List};
ghost use Rattle.std.specs.List.{All};
ghost use Rattle.sccp_base.specs.declared.mark.Mark.{Mark};
ghost use Rattle.sccp_scrc.specs.Arriving.{point_of};
ghost use Rattle.sccp_scrc.specs.declared.way.Way.TheVariants.{ByTitle};
ghost use Rattle.relay_ways.specs.Conditions.{both, is_possible, IsPossible};
ghost use Rattle.relay_ways.specs.Outcomes.{Outcome, cleared, cleared_way, Becomes};
ghost use Rattle.relay_ways.specs.Sends.{sending, forwarded};
ghost use Rattle.relay_ways.specs.Ways.{way, reaches, forwarded_way, service_ways, ways_of, possible, possible_ways, ways};
ghost use Rattle.relay_ways.specs.Ways.{AreWays, IsForwarded, AddsWays};

use crate::condition::{Condition, both, copied, least_marking};
use crate::incoming::Incoming;
use crate::outcomes::outcome_conditions;
use crate::way::{Sending, Way};
use plan_model::Plan;
use sccp_base::{List, Mark, Octets, OutOfMemory, PointCode};
use sccp_scrc::{Arrival, Service, arrive};
use std::alloc::Global;

/// Adds a way whose condition some marking meets.
fn add_way(found: &mut List<Way>, condition: Condition, sending: Sending) -> Result<(), OutOfMemory>
    requires { IsPossible condition }
    ensures { OnOk result (AddsWays found.old found.new (way condition sending ∷ [])) }
{
    found.push(Way { condition, sending })?;
    Ok(())
}

/// What is relayed, or goes to its destination.
fn forwarded(arrival: Arrival) -> Option<Sending>
    ensures { result ≡ forwarded arrival }
{
    match arrival {
        Arrival::Relayed { pc, octets } => Some(Sending { to: pc, octets }),
        Arrival::Ended { pc, octets, .. } => Some(Sending { to: pc, octets }),
        other => {
            drop(other);
            None
        }
    }
}

/// What the node forwards of octets of its own, under a marking that meets the condition.
fn forwarded_under(
    alloc: Global,
    plan: &Plan,
    node: u8,
    octets: &[u8],
    condition: &Condition,
) -> Result<Option<Sending>, OutOfMemory>
    requires { node < length plan.now.nodes }
    ensures { IfOk result (IsForwarded plan.now node octets.now condition.now) }
{
    match least_marking(alloc, condition)? {
        Some(marking) => {
            let arrival = arrive(alloc, plan, node, &marking, plan.point_of(node), octets)?;
            Ok(forwarded(arrival))
        }
        None => Ok(None),
    }
}

/// Adds the way of an outcome of a service message at the node itself, if there is one. The condition is that of the message and of
/// the outcome together.
fn add_forwarded(
    alloc: Global,
    plan: &Plan,
    node: u8,
    octets: &[u8],
    combined: Condition,
    found: &mut List<Way>,
) -> Result<(), OutOfMemory>
    requires { node < length plan.now.nodes }
    ensures { (c : Condition) (o : Outcome) → combined ≡ both c o.condition
        → ((marking : List Mark) → Becomes plan.now node (point_of plan.now node) octets.now marking o)
        → OnOk result (AddsWays found.old found.new (possible (forwarded_way c o))) }
{
    match forwarded_under(alloc, plan, node, octets, &combined)? {
        Some(sending) => add_way(found, combined, sending),
        None => Ok(()),
    }
}

/// Adds the ways of a service message that is routed at the node itself.
fn add_by_title(
    alloc: Global,
    plan: &Plan,
    node: u8,
    octets: &[u8],
    condition: &Condition,
    found: &mut List<Way>,
) -> Result<(), OutOfMemory>
    requires { node < length plan.now.nodes }
    ensures { OnOk result (AddsWays found.old found.new (possible (service_ways plan.now node condition.now octets.now ByTitle))) }
{
    let outcomes = outcome_conditions(alloc, plan, node, octets)?;
    for outcome in outcomes.as_slice() {
        let combined = both(alloc, condition, outcome)?;
        add_forwarded(alloc, plan, node, octets, combined, found)?;
    }
    Ok(())
}

/// The condition that the point is not prohibited, and has its SCCP.
fn reaches(alloc: Global, to: PointCode) -> Result<Condition, OutOfMemory>
    ensures { IfOk result (λ c. c ≡ reaches to) }
{
    let mut none_of = List::new(alloc);
    none_of.push(Mark::PointCode(to))?;
    none_of.push(Mark::Sccp(to))?;
    Ok(Condition {
        one_of: List::new(alloc),
        none_of,
    })
}

/// Whether some marking meets the condition.
pub(crate) fn is_possible(alloc: Global, condition: &Condition) -> Result<bool, OutOfMemory>
    ensures value { IfOk result (λ answer. answer ≡ is_possible condition.now) }
    ensures shown { IfOk result (λ answer. answer ≡ true → IsPossible condition.now) }
{
    match least_marking(alloc, condition)? {
        Some(_) => Ok(true),
        None => Ok(false),
    }
}

/// Adds the way of a service message that goes to a point, if it can.
fn add_direct(
    alloc: Global,
    condition: &Condition,
    to: PointCode,
    octets: Octets,
    found: &mut List<Way>,
) -> Result<(), OutOfMemory>
    ensures { OnOk result (AddsWays found.old found.new (possible (way (both condition.now (reaches to)) (sending to octets) ∷ []))) }
{
    let reached = reaches(alloc, to)?;
    let combined = both(alloc, condition, &reached)?;
    if is_possible(alloc, &combined)? {
        add_way(found, combined, Sending { to, octets })
    } else {
        Ok(())
    }
}

/// Adds the ways of a service message, whether its way is shut or not.
fn add_service(
    alloc: Global,
    plan: &Plan,
    node: u8,
    condition: &Condition,
    service: Service,
    found: &mut List<Way>,
) -> Result<(), OutOfMemory>
    requires { node < length plan.now.nodes }
    ensures { OnOk result (AddsWays found.old found.new
        (possible (service_ways plan.now node condition.now service.octets (cleared_way service.way)))) }
{
    let Service { octets, way } = service;
    match way {
        sccp_scrc::Way::Direct(to) => add_direct(alloc, condition, to, octets, found),
        sccp_scrc::Way::Shut(mark) => add_direct(alloc, condition, mark.point(), octets, found),
        sccp_scrc::Way::ByTitle => add_by_title(
            alloc,
            plan,
            node,
            octets.as_slice(),
            condition,
            found,
        ),
    }
}

/// Adds the ways of a returned message.
fn add_returned(
    alloc: Global,
    plan: &Plan,
    node: u8,
    condition: &Condition,
    service: Option<Service>,
    found: &mut List<Way>,
) -> Result<(), OutOfMemory>
    requires { node < length plan.now.nodes }
    ensures { (cause : ℕ) (marks : List Mark) → OnOk result (AddsWays found.old found.new
        (possible (ways_of plan.now node condition.now (cleared (Arrival.Returned cause marks service))))) }
{
    match service {
        Some(service) => add_service(alloc, plan, node, condition, service, found),
        None => Ok(()),
    }
}

/// Adds a way under a condition that some marking meets.
fn add_sending(
    alloc: Global,
    condition: &Condition,
    sending: Sending,
    found: &mut List<Way>,
) -> Result<(), OutOfMemory>
    requires { IsPossible condition.now }
    ensures { OnOk result (AddsWays found.old found.new (possible (way condition.now sending ∷ []))) }
{
    let condition = copied(alloc, condition)?;
    add_way(found, condition, sending)
}

/// Adds the ways of an arrival that is what becomes of the octets if the condition is met.
fn add_ways_of(
    alloc: Global,
    plan: &Plan,
    node: u8,
    condition: &Condition,
    arrival: Arrival,
    found: &mut List<Way>,
) -> Result<(), OutOfMemory>
    requires node { node < length plan.now.nodes }
    requires possible { IsPossible condition.now }
    ensures { OnOk result (AddsWays found.old found.new (possible (ways_of plan.now node condition.now (cleared arrival)))) }
{
    match arrival {
        Arrival::Relayed { pc, octets } => add_sending(
            alloc,
            condition,
            Sending { to: pc, octets },
            found,
        ),
        Arrival::Ended { pc, octets, .. } => add_sending(
            alloc,
            condition,
            Sending { to: pc, octets },
            found,
        ),
        Arrival::Returned { marks, service, .. } => {
            drop(marks);
            add_returned(alloc, plan, node, condition, service, found)
        }
        other => {
            drop(other);
            Ok(())
        }
    }
}

/// Adds the ways of what becomes of the octets if the condition is met.
fn add_ways_under(
    alloc: Global,
    at: &Incoming<'_>,
    condition: &Condition,
    found: &mut List<Way>,
) -> Result<(), OutOfMemory>
    ensures { (o : Outcome) → o.condition ≡ condition.now
        → ((marking : List Mark) → Becomes at.now.plan.now at.now.node at.now.origin at.now.octets.now marking o)
        → OnOk result (AddsWays found.old found.new (possible_ways at.now.plan.now at.now.node o)) }
{
    match least_marking(alloc, condition)? {
        Some(marking) => {
            let arrival = arrive(alloc, at.plan, at.node, &marking, at.origin, at.octets)?;
            drop(marking);
            add_ways_of(alloc, at.plan, at.node, condition, arrival, found)
        }
        None => Ok(()),
    }
}

/// Adds the ways of all outcomes.
fn add_all_ways(alloc: Global, at: &Incoming<'_>, found: &mut List<Way>) -> Result<(), OutOfMemory>
    ensures { OnOk result (AddsWays found.old found.new (ways at.now.plan.now at.now.node at.now.origin at.now.octets.now)) }
{
    let outcomes = outcome_conditions(alloc, at.plan, at.node, at.octets)?;
    for outcome in outcomes.as_slice() {
        add_ways_under(alloc, at, outcome, found)?;
    }
    Ok(())
}

/// The ways in which the node can send something because of octets that arrive at it, each with its condition. There are at most
/// 121: a row of eight targets has 11 turns, and a service message by title as many. The error is want of memory.
pub fn ways(alloc: Global, at: &Incoming<'_>) -> Result<List<Way>, OutOfMemory>
    ensures exact { IfOk result (λ found. found ≡ ways at.now.plan.now at.now.node at.now.origin at.now.octets.now) }
    // Over all markings, the node sends what they say.
    ensures are { IfOk result (AreWays at.now.plan.now at.now.node at.now.origin at.now.octets.now) }
    // Some marking meets the condition of each.
    ensures possible { IfOk result (All (λ w. IsPossible w.condition)) }
{
    // The call ensures that the plan is sound, which the clauses need.
    let _nodes = at.plan.nodes();
    let mut found = List::new(alloc);
    add_all_ways(alloc, at, &mut found)?;
    Ok(found)
}
