//! The pairs that a connection goes through, as running relays find them: only by their sections.
ghost use Rattle.std.specs.Prelude.{◌≡◌, ◌<◌, ◌≤◌, find, length, position, IfOk, IfSome};
ghost use Rattle.std.specs.Option.{option_copied};
ghost use Rattle.sccp_couple.specs.Sections.{is_near_of, is_that};
ghost use Rattle.plan_model.specs.Network.{has_point};
ghost use Rattle.chain_world.specs.Staged.{stage_of, sections_at, first_in, joined_to, next_in, is_open, stages_from};

use couple_chain::Relay;
use plan_model::Plan;
use sccp_base::{List, OutOfMemory, PointCode, Reference};
use sccp_couple::{Section, section_at};
use std::alloc::Global;

/// A pair that a relay has: the place of the relay in the plan, and the two sections.
#[derive(Clone, Copy)]
pub(crate) struct Stage {
    pub(crate) node: u8,
    pub(crate) near: Section,
    pub(crate) far: Section,
}

/// A reference to the near section with this point and remote, if there is one.
fn near_at(sections: &[Section], point: PointCode, remote: Reference) -> Option<&Section>
    ensures { option_copied result ≡ find (is_near_of point remote) sections.now }
{
    sections
        .iter()
        .find(|s| s.near && s.point == point && s.remote == Some(remote))
}

/// A copy of the near section with this point and remote.
fn near_of(sections: &[Section], point: PointCode, remote: Reference) -> Option<Section>
    ensures { result ≡ find (is_near_of point remote) sections.now }
{
    match near_at(sections, point, remote) {
        Some(section) => Some(*section),
        None => None,
    }
}

/// The pair of these sections whose near one has this point and remote.
fn stage_in(sections: &[Section], node: u8, point: PointCode, remote: Reference) -> Option<Stage>
    ensures value { result ≡ stage_of sections.now node point remote }
    ensures node { IfSome result (λ stage. stage.node ≡ node) }
{
    let near = near_of(sections, point, remote)?;
    let other = near.other?;
    let far = section_at(sections, other)?;
    Some(Stage { node, near, far })
}

/// The pair of a relay whose near section has this point and remote.
fn stage_at(relays: &[Relay], node: u8, point: PointCode, remote: Reference) -> Option<Stage>
    requires { node < length relays.now }
    ensures value { result ≡ stage_of (sections_at relays.now node) node point remote }
    ensures node { IfSome result (λ stage. stage.node ≡ node) }
{
    let relay = &relays[usize::from(node)];
    stage_in(relay.sections().as_slice(), node, point, remote)
}

/// The pair at the first relay that has one whose near section has this point and remote.
pub(crate) fn first_stage(relays: &[Relay], point: PointCode, remote: Reference) -> Option<Stage>
    requires { length relays.now ≤ 255 }
    ensures { result ≡ first_in 0 relays.now point remote }
{
    for (i, relay) in relays.iter().enumerate() {
        if let Some(stage) = stage_in(relay.sections().as_slice(), i as u8, point, remote) {
            return Some(stage);
        }
    }
    None
}

/// Whether both sections have a remote, so that data can pass.
fn is_open(stage: &Stage) -> bool
    ensures { result ≡ is_open stage.now }
{
    stage.near.remote.is_some() && stage.far.remote.is_some()
}

/// The relay whose point a pair's far section has. There is none if the point is an end's.
fn node_behind(plan: &Plan, stage: &Stage) -> Option<u8>
    ensures { result ≡ position (has_point stage.now.far.point) plan.now.nodes }
{
    let point = stage.far.point;
    plan.node_at(point)
}

/// Whether the near section's own reference of the next pair is the remote of the first pair's far section.
fn is_joined(stage: &Stage, next: &Stage) -> bool
    ensures { result ≡ is_that stage.now.far.remote next.now.near.own }
{
    match stage.far.remote {
        Some(remote) => remote == next.near.own,
        None => false,
    }
}

/// The next pair, if it is joined to the first one.
fn joined_to(stage: &Stage, next: Stage) -> Option<Stage>
    ensures value { result ≡ joined_to stage.now next }
    ensures node { IfSome result (λ joined. joined.node ≡ next.node) }
{
    if is_joined(stage, &next) {
        Some(next)
    } else {
        None
    }
}

/// The pair after one, at a relay given by its place. Its near section has the first relay's point, and as its remote the own
/// reference of that relay's far section. It must be joined to the first pair.
fn next_stage(plan: &Plan, relays: &[Relay], stage: &Stage, node: u8) -> Option<Stage>
    requires inside { stage.now.node < length plan.now.nodes }
    requires node { node < length relays.now }
    ensures value { result ≡ next_in plan.now relays.now stage.now node }
    ensures node { IfSome result (λ next. next.node ≡ node) }
{
    let point = plan.point_of(stage.node);
    let own = stage.far.own;
    let next = stage_at(relays, node, point, own)?;
    joined_to(stage, next)
}

/// The pairs that follow from one, at most `most` of them. There are none unless all have both remotes, and an end is after
/// the last.
pub(crate) fn follow(
    alloc: Global,
    plan: &Plan,
    relays: &[Relay],
    most: u8,
    first: &Stage,
) -> Result<Option<List<Stage>>, OutOfMemory>
    requires count { length relays.now ≡ length plan.now.nodes }
    requires inside { first.now.node < length plan.now.nodes }
    ensures { IfOk result (λ stages. stages ≡ stages_from plan.now relays.now most first.now) }
{
    let mut path = List::new(alloc);
    let mut stage = *first;
    for _turn in 0..most {
        if !is_open(&stage) {
            return Ok(None);
        }
        path.push(stage)?;
        let Some(node) = node_behind(plan, &stage) else {
            return Ok(Some(path));
        };
        let Some(next) = next_stage(plan, relays, &stage, node) else {
            return Ok(None);
        };
        stage = next;
    }
    Ok(None)
}
