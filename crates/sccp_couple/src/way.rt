//! What a relay makes of a connection request: a refusal with its cause, or the point that it goes to.
ghost use Rattle.std.specs.Prelude.{◌≡◌, ◌<◌, ◌≤◌, ◌==◌, if◌then◌else◌, length, true, IfOk, IsSomeAnd, Some, slice_get};
ghost use Rattle.std.specs.List.{list_any};
ghost use Rattle.sccp_base.specs.Marks.{holds};
ghost use Rattle.sccp_base.specs.declared.mark.Mark.TheVariants.{Subsystem};
ghost use Rattle.sccp_address.specs.declared.address.Address.{Address as AddressOf};
ghost use Rattle.sccp_address.specs.Written.{written};
ghost use Rattle.sccp_layout.specs.Joining.{are_short};
ghost use Rattle.sccp_layout.specs.Table as names;
ghost use Rattle.sccp_message.specs.Fields.{param as param_of};
ghost use Rattle.sccp_scrc.specs.Arriving.{point_of, subsystems_of};
ghost use Rattle.sccp_scrc.specs.Rewriting.{spot_of};
ghost use Rattle.plan_model.specs.Routes.{StaysIn};
ghost use Rattle.sccp_couple.specs.Ways.{at_subsystem, refusal_of, after_step, is_used_up, request_way, count_first, translated, HasRoom};

use crate::connection_request::ConnectionRequest;
use crate::params::{HOPS, count_first, first_octet};
use crate::routing_control::RoutingControl;
use plan_model::{Node, Plan, Spot, Step, step};
use sccp_address::Address;
use sccp_base::{List, Mark, Marking, OutOfMemory, PointCode};
use sccp_layout::Param;
use sccp_message::param;
use sccp_scrc::{onward_address, spot};
use std::alloc::Global;

/// What a relay makes of a connection request, whatever sections there are (Q.714 sections 2 and 3).
#[derive(Drop)]
pub enum Way {
    /// It is refused, with this refusal cause (Q.713 section 3.15).
    Refused(u8),
    /// It goes on to a point, with this called address and these parameters.
    Onward {
        to: PointCode,
        called: Address,
        params: List<Param>,
    },
}

/// The node at a place of the plan.
fn node_of(plan: &Plan, node: u8) -> &Node
    requires { node < length plan.now.nodes }
    ensures { slice_get plan.now.nodes node ≡ Some result.now }
{
    &plan.nodes().as_slice()[usize::from(node)]
}

/// Whether the node has the subsystem.
fn is_equipped(plan: &Plan, node: u8, ssn: u8) -> bool
    requires { node < length plan.now.nodes }
    ensures { result ≡ list_any (λ own. own == ssn) (subsystems_of plan.now node) }
{
    node_of(plan, node).is_equipped(ssn)
}

/// Whether the node's own subsystem is out of service in this marking.
fn is_out_of_service(plan: &Plan, node: u8, marking: &Marking, ssn: u8) -> bool
    requires { node < length plan.now.nodes }
    ensures { result ≡ holds marking.now (Subsystem (point_of plan.now node) ssn) }
{
    marking.holds(Mark::Subsystem(plan.point_of(node), ssn))
}

/// The refusal cause of a request that is routed on a subsystem number (Q.713 section 3.15).
fn at_subsystem(plan: &Plan, node: u8, marking: &Marking, ssn: Option<u8>) -> u8
    requires { node < length plan.now.nodes }
    ensures { Way.Refused result ≡ at_subsystem plan.now node marking.now ssn }
{
    match ssn {
        None => 19,
        Some(ssn) => {
            if !is_equipped(plan, node, ssn) {
                19
            } else if is_out_of_service(plan, node, marking, ssn) {
                10
            } else {
                6
            }
        }
    }
}

/// The refusal cause of a title that no row of the translation matches.
fn refusal_of(cause: u8) -> u8
    ensures { result ≡ refusal_of cause }
{
    match cause {
        0 => 18,
        1 => 4,
        _ => 19,
    }
}

/// The refusal cause of a title whose targets are all closed.
fn blocked_cause(cause: u8) -> u8
    ensures { result ≡ (if cause == 3 then 10 else 5) }
{
    if cause == 3 { 10 } else { 5 }
}

/// Whether one more translation would use up the hop counter.
fn is_used_up(params: &List<Param>) -> bool
    ensures { result ≡ is_used_up (param_of params.now names.hops) }
{
    match param(params, HOPS) {
        Some(octets) => first_octet(octets) <= 1,
        None => false,
    }
}

/// Sends the request on to a point, with another called address.
#[tactic(auto, using(crate::proofs::Counting::count_short))]
fn onward(
    alloc: Global,
    to: PointCode,
    called: Option<Address>,
    params: &List<Param>,
) -> Result<Way, OutOfMemory>
    requires called { IsSomeAnd called (λ a. length (written a) ≤ 21) }
    requires short { are_short params.now ≡ true }
    ensures value { IfOk result (λ way. (a : AddressOf) → called ≡ Some a → way ≡ Way.Onward to a (count_first params.now)) }
    ensures room { IfOk result HasRoom }
{
    match called {
        Some(called) => {
            let params = count_first(alloc, params)?;
            Ok(Way::Onward { to, called, params })
        }
        None => unreachable!(),
    }
}

/// What the request becomes after a step of the translation.
#[tactic(auto, using(crate::proofs::Counting::relay_room, crate::proofs::Counting::place_room))]
fn after_step(
    alloc: Global,
    control: &RoutingControl,
    request: &ConnectionRequest,
    spot: &Spot,
    step: &Step,
) -> Result<Way, OutOfMemory>
    requires node { control.now.node < length control.now.plan.now.nodes }
    requires stays { StaysIn control.now.plan.now step.now }
    requires spot { spot_of control.now.node request.now.called.now ≡ Some spot.now }
    requires at { spot.now.node ≡ control.now.node }
    requires short { are_short request.now.params.now ≡ true }
    ensures value { IfOk result
        (λ way. way ≡ after_step control.now.plan.now control.now.node request.now.called.now request.now.params.now step.now) }
    ensures room { IfOk result HasRoom }
{
    let called = request.called;
    let params = request.params;
    match step {
        Step::Sent { next, .. } => {
            // The proof learns only from this call that there are at most 32 digits.
            let _count = next.digits.len();
            let to = control.plan.point_of(next.node);
            onward(alloc, to, onward_address(called, spot, step), params)
        }
        Step::Ended { pc, .. } => {
            if *pc == control.plan.point_of(control.node) {
                return Ok(Way::Refused(6));
            }
            let _count = spot.digits.len();
            onward(alloc, *pc, onward_address(called, spot, step), params)
        }
        Step::Blocked { cause, .. } => Ok(Way::Refused(blocked_cause(*cause))),
        Step::NoRow { cause } => Ok(Way::Refused(refusal_of(*cause))),
        Step::Overgrown => Ok(Way::Refused(17)),
    }
}

/// What a relay makes of a request that is routed on a title, which must have digits.
fn translated(
    alloc: Global,
    control: &RoutingControl,
    request: &ConnectionRequest,
) -> Result<Way, OutOfMemory>
    requires node { control.now.node < length control.now.plan.now.nodes }
    requires short { are_short request.now.params.now ≡ true }
    ensures value { IfOk result
        (λ way. way ≡ translated control.now.plan.now control.now.node control.now.marking.now request.now.called.now request.now.params.now
        (spot_of control.now.node request.now.called.now)) }
    ensures room { IfOk result HasRoom }
{
    let Some(spot) = spot(control.node, request.called) else {
        return Ok(Way::Refused(18));
    };
    let step = step(alloc, control.plan, &spot, control.marking)?;
    after_step(alloc, control, request, &spot, &step)
}

/// What a relay makes of a request. The tests are made in this order: class, routing, hop counter, title.
pub(crate) fn request_way(
    alloc: Global,
    control: &RoutingControl,
    request: &ConnectionRequest,
) -> Result<Way, OutOfMemory>
    requires node { control.now.node < length control.now.plan.now.nodes }
    requires short { are_short request.now.params.now ≡ true }
    ensures value { IfOk result
        (λ way. way ≡ request_way control.now.plan.now control.now.node control.now.marking.now request.now.class request.now.called.now
        request.now.params.now) }
    ensures room { IfOk result HasRoom }
{
    if request.class & 0x0F != 2 {
        return Ok(Way::Refused(6));
    }
    let called = request.called;
    if called.by_ssn {
        let cause = at_subsystem(control.plan, control.node, control.marking, called.ssn);
        return Ok(Way::Refused(cause));
    }
    if is_used_up(request.params) {
        return Ok(Way::Refused(16));
    }
    translated(alloc, control, request)
}
