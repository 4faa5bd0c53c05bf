//! The steps of a connection, from its request to its release.
ghost use Rattle.std.specs.Prelude.{◌≡◌, [], ◌∷◌, IfOk, OnOk, Some, map, filter_map};
ghost use Rattle.sccp_scrc.specs.Arriving.{point_of};
ghost use Rattle.chain_world.specs.Kept.{kept};
ghost use Rattle.chain_world.specs.Staged.{told_line};
ghost use Rattle.chain_call.specs.Course.{beginning};
ghost use Rattle.chain_call.specs.Steps.{called_of, counter, requested, confirmed, sent_by, sent_forth, sent_back, released, through};
ghost use Rattle.chain_call.specs.Steps.{carried, carried_on, name_at, refused_or, on_line, with_line, answer_to, outcome};

use crate::call::Call;
use crate::course::Course;
use crate::finding::{Requested, data_at, first_confirm, first_refusal, first_request};
use crate::outcome::{Outcome, Through};
use chain_world::{Line, World};
use plan_model::Plan;
use sccp_address::{Address, Title};
use sccp_base::{List, Name, Octets, OutOfMemory, PointCode, Reference};
use sccp_layout::Param;
use sccp_message::Message;
use std::alloc::Global;

/// The source local reference of the end that requests the connection.
const NEAR_REFERENCE: u32 = 1;
/// The source local reference of the end that is handed the request.
const FAR_REFERENCE: u32 = 2;
/// The protocol class of a connection without flow control (Q.713 section 3.6).
const CLASS: u8 = 2;
/// The name code of the hop counter among the optional parameters (Q.713 section 3.18).
const HOP_COUNTER: u8 = 0x11;

/// The greatest value of a hop counter.
const MOST_HOPS: u8 = 15;

/// The reference of the end that requests the connection.
fn near_reference() -> Reference
    ensures { result ≡ 1 }
{
    Reference::new(NEAR_REFERENCE).unwrap()
}

/// The reference of the end that is handed the request.
fn far_reference() -> Reference
    ensures { result ≡ 2 }
{
    Reference::new(FAR_REFERENCE).unwrap()
}

/// The called address of the request: it routes on the title, and has no point code.
fn called_of(call: &Call) -> Address
    ensures { result ≡ called_of call.now }
{
    let selector = call.selector;
    let digits = call.digits;
    Address {
        national: false,
        by_ssn: false,
        pc: None,
        ssn: call.ssn,
        title: Title::Global { selector, digits },
    }
}

/// One octet as a list.
fn one_octet(alloc: Global, octet: u8) -> Result<Octets, OutOfMemory>
    ensures { IfOk result (λ octets. octets ≡ octet ∷ []) }
{
    let mut octets = Octets::new(alloc);
    octets.push(octet)?;
    Ok(octets)
}

/// The optional parameters of the request: a hop counter with its greatest value.
fn counter(alloc: Global) -> Result<List<Param>, OutOfMemory>
    ensures { IfOk result (λ params. params ≡ counter) }
{
    let mut params = List::new(alloc);
    let octets = one_octet(alloc, MOST_HOPS)?;
    params.push(Param::new(HOP_COUNTER, octets).unwrap())?;
    Ok(params)
}

/// An end requests the connection (CR).
#[tactic(auto, unfolding(crate::specs::Steps::requested))]
fn request(alloc: Global, course: &mut Course, call: &Call) -> Result<(), OutOfMemory>
    ensures { OnOk result (course.new ≡ requested call.now course.old) }
{
    let params = counter(alloc)?;
    let message = Message::Cr {
        slr: near_reference(),
        class: CLASS,
        called: called_of(call),
        params,
    };
    course.offer(call.from, call.entry, message)
}

/// The end that was handed the request confirms it (CC). Nothing is done if no end was.
#[tactic(auto, unfolding(crate::specs::Steps::confirmed))]
fn confirm(
    alloc: Global,
    course: &mut Course,
    request: Option<Requested>,
) -> Result<(), OutOfMemory>
    ensures { OnOk result (course.new ≡ confirmed request course.old) }
{
    match request {
        None => Ok(()),
        Some(request) => {
            let message = Message::Cc {
                dlr: request.slr,
                slr: far_reference(),
                class: CLASS,
                params: List::new(alloc),
            };
            course.offer(request.to, request.from, message)
        }
    }
}

/// An end sends one DT1 for each octet, with M on all but the last.
fn send(
    alloc: Global,
    course: &mut Course,
    from: PointCode,
    to: PointCode,
    reference: Reference,
    octets: &[u8],
) -> Result<(), OutOfMemory>
    ensures { OnOk result (course.new ≡ sent_by from to reference octets.now course.old) }
{
    for (place, octet) in octets.iter().enumerate() {
        let message = Message::Dt1 {
            dlr: reference,
            more: place + 1 < octets.len(),
            payload: one_octet(alloc, *octet)?,
        };
        course.offer(from, to, message)?;
    }
    Ok(())
}

/// Sends the octets to the far end.
#[tactic(auto, unfolding(crate::specs::Steps::sent_forth))]
fn send_forth(
    alloc: Global,
    course: &mut Course,
    call: &Call,
    own: Reference,
) -> Result<(), OutOfMemory>
    ensures { OnOk result (course.new ≡ sent_forth call.now own course.old) }
{
    send(
        alloc,
        course,
        call.from,
        call.entry,
        own,
        call.octets.as_slice(),
    )
}

/// The far end sends back what it was handed.
#[tactic(auto, unfolding(crate::specs::Steps::sent_back))]
fn send_back(
    alloc: Global,
    course: &mut Course,
    request: Requested,
    far: PointCode,
) -> Result<(), OutOfMemory>
    ensures { OnOk result (course.new ≡ sent_back request far course.old) }
{
    let octets = data_at(alloc, far, far_reference(), course.handed())?;
    send(
        alloc,
        course,
        request.to,
        request.from,
        request.slr,
        octets.as_slice(),
    )
}

/// The end that requested the connection releases it (RLSD).
#[tactic(auto, unfolding(crate::specs::Steps::released))]
fn release(
    alloc: Global,
    course: &mut Course,
    call: &Call,
    own: Reference,
) -> Result<(), OutOfMemory>
    ensures { OnOk result (course.new ≡ released call.now own course.old) }
{
    let message = Message::Rlsd {
        dlr: own,
        slr: near_reference(),
        cause: 0,
        params: List::new(alloc),
    };
    course.offer(call.from, call.entry, message)
}

/// What went over the connection, from the records of what ends were handed.
#[tactic(auto, unfolding(crate::specs::Steps::through))]
fn through(
    alloc: Global,
    course: &Course,
    call: &Call,
    far: PointCode,
) -> Result<Through, OutOfMemory>
    ensures { IfOk result (λ t. t ≡ through call.now far course.now) }
{
    let forth = data_at(alloc, far, far_reference(), course.handed())?;
    let back = data_at(alloc, call.from, near_reference(), course.handed())?;
    let sections = course.sections();
    Ok(Through {
        forth,
        back,
        sections,
    })
}

/// Octets go forth and back, and the connection is released. The result is `None` if a link still holds a message after all
/// deliveries that are allowed.
#[tactic(auto, unfolding(crate::specs::Steps::carried))]
fn carry(
    alloc: Global,
    course: &mut Course,
    call: &Call,
    far: PointCode,
    own: Reference,
    request: Requested,
) -> Result<Option<Through>, OutOfMemory>
    ensures { IfOk result (λ t. t ≡ carried call.now far own request course.old) }
{
    send_forth(alloc, course, call, own)?;
    if !course.settle()? {
        return Ok(None);
    }
    send_back(alloc, course, request, far)?;
    if !course.settle()? {
        return Ok(None);
    }
    release(alloc, course, call, own)?;
    if !course.settle()? {
        return Ok(None);
    }
    Ok(Some(through(alloc, course, call, far)?))
}

/// Carries octets over the connection, if both ends know the reference that their relay gave. Otherwise nothing is sent.
#[tactic(auto, unfolding(crate::specs::Steps::carried_on))]
fn carry_on(
    alloc: Global,
    course: &mut Course,
    call: &Call,
    far: PointCode,
) -> Result<Option<Through>, OutOfMemory>
    ensures { IfOk result (λ t. t ≡ carried_on call.now far course.old) }
{
    let Some(own) = first_confirm(call.from, course.handed()) else {
        return Ok(Some(through(alloc, course, call, far)?));
    };
    let Some(request) = first_request(course.handed()) else {
        return Ok(Some(through(alloc, course, call, far)?));
    };
    carry(alloc, course, call, far, own, request)
}

/// The name of the node at a point.
#[tactic(auto, unfolding(crate::specs::Steps::name_at))]
fn name_at(plan: &Plan, point: PointCode) -> Option<Name>
    ensures { result ≡ name_at plan.now point }
{
    let place = plan.node_at(point)?;
    let node = plan.nodes().as_slice().get(usize::from(place))?;
    Some(node.name)
}

/// The names of the nodes at these places.
fn names_of(alloc: Global, plan: &Plan, places: &[u8]) -> Result<List<Name>, OutOfMemory>
    ensures { IfOk result (λ names. names ≡ filter_map (name_at plan.now) (map (point_of plan.now) places.now)) }
{
    let mut names = List::new(alloc);
    for place in places {
        if let Some(name) = name_at(plan, plan.point_of(*place)) {
            names.push(name)?;
        }
    }
    Ok(names)
}

/// The outcome of a connection that is not open.
fn refused_or(refusal: Option<u8>) -> Outcome
    ensures { result ≡ refused_or refusal }
{
    match refusal {
        Some(cause) => Outcome::Refused(cause),
        None => Outcome::Unanswered,
    }
}

/// The outcome of a connection that has a line.
fn opened(
    alloc: Global,
    course: &mut Course,
    call: &Call,
    line: &Line,
) -> Result<Outcome, OutOfMemory>
    ensures { IfOk result (λ o. o ≡ on_line call.now course.old (Some (told_line course.old.plan line.now))) }
{
    let path = names_of(alloc, course.plan(), line.path.as_slice())?;
    let far = line.far;
    let through = carry_on(alloc, course, call, far)?;
    Ok(Outcome::Opened(path, far, through))
}

/// The outcome of a connection: it is open exactly if it has a line.
#[tactic(auto, unfolding(crate::specs::Steps::with_line))]
fn with_line(alloc: Global, course: &mut Course, call: &Call) -> Result<Outcome, OutOfMemory>
    ensures { IfOk result (λ o. o ≡ with_line call.now course.old) }
{
    match course.line(call.from, near_reference())? {
        Some(line) => {
            let outcome = opened(alloc, course, call, &line);
            drop(line);
            outcome
        }
        None => Ok(refused_or(first_refusal(call.from, course.handed()))),
    }
}

/// Confirms the request, and gives the outcome. No link holds a message at the start.
#[tactic(auto, unfolding(crate::specs::Steps::answer_to))]
fn answer_to(alloc: Global, course: &mut Course, call: &Call) -> Result<Outcome, OutOfMemory>
    ensures { IfOk result (λ o. o ≡ answer_to call.now course.old) }
{
    let request = first_request(course.handed());
    confirm(alloc, course, request)?;
    if !course.settle()? {
        return Ok(Outcome::Unsettled);
    }
    with_line(alloc, course, call)
}

/// Makes the connection from its request on.
#[tactic(auto, unfolding(crate::specs::Steps::outcome))]
fn run(alloc: Global, course: &mut Course, call: &Call) -> Result<Outcome, OutOfMemory>
    ensures { IfOk result (λ o. o ≡ outcome call.now course.old) }
{
    request(alloc, course, call)?;
    if !course.settle()? {
        return Ok(Outcome::Unsettled);
    }
    answer_to(alloc, course, call)
}

/// Makes a connection in a world in which something may have happened already. Messages offered and deliveries are counted
/// from now on.
///
/// An end requests the connection (CR), and the end that is handed the request confirms it (CC). Octets go forth and then
/// back, one in each DT1, and the connection is released (RLSD). The only error is lack of memory.
pub fn connect_in(alloc: Global, world: World, call: &Call) -> Result<Outcome, OutOfMemory>
    ensures { IfOk result (λ o. o ≡ outcome call.now (beginning world)) }
{
    let mut course = Course::new(alloc, world);
    run(alloc, &mut course, call)
}

/// Makes a connection over the relays of a plan, in a new world without prohibited marks. The only error is lack of memory.
pub fn connect(alloc: Global, plan: Plan, call: &Call) -> Result<Outcome, OutOfMemory>
    ensures { IfOk result (λ o. o ≡ outcome call.now (beginning (kept plan []))) }
{
    let world = World::new(alloc, plan)?;
    connect_in(alloc, world, call)
}
