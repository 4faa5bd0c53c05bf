//! The line of a connection, made from the records of running relays and links.
ghost use Rattle.std.specs.Prelude.{◌≡◌, ◌<◌, All, Some, length, map, option_map, IfOk, IfSome};
ghost use Rattle.couple_chain.specs.Logged.{logged};
ghost use Rattle.sccp_scrc.specs.Arriving.{point_of};
ghost use Rattle.chain_world.specs.Staged.{told_piece, told_line, passed_at, pieces_in, delivered_by, over};
ghost use Rattle.chain_world.specs.Staged.{line_by};

use crate::line::{Line, Piece};
use crate::link::{Link, delivered};
use crate::pieces::{passed_by, pieces_of};
use crate::stage::{Stage, follow};
use couple_chain::Relay;
use plan_model::Plan;
use sccp_base::{List, OutOfMemory, PointCode, Reference};
use std::alloc::Global;

/// The places of the relays that a line goes through.
fn nodes_of(alloc: Global, path: &[Stage]) -> Result<List<u8>, OutOfMemory>
    ensures { IfOk result (λ nodes. nodes ≡ map (λ stage. stage.node) path.now) }
{
    let mut nodes = List::new(alloc);
    for stage in path {
        nodes.push(stage.node)?;
    }
    Ok(nodes)
}

/// What a section of a relay passed on.
fn passed_at(
    alloc: Global,
    relays: &[Relay],
    node: u8,
    own: Reference,
) -> Result<List<Piece>, OutOfMemory>
    requires { node < length relays.now }
    ensures { IfOk result (λ pieces. map told_piece pieces ≡ logged own (passed_at relays.now node)) }
{
    let relay = &relays[usize::from(node)];
    passed_by(alloc, relay.passed(), own)
}

/// What a link delivered for a reference, if there is a reference.
fn handed(
    alloc: Global,
    links: &[Link],
    from: PointCode,
    to: PointCode,
    remote: Option<Reference>,
) -> Result<List<Piece>, OutOfMemory>
    ensures { IfOk result (λ pieces. map told_piece pieces ≡ pieces_in remote (delivered_by links.now from to)) }
{
    match remote {
        Some(dlr) => pieces_of(alloc, delivered(links, from, to), dlr),
        None => Ok(List::new(alloc)),
    }
}

/// What went in at the near side of the first pair.
fn forth_in(alloc: Global, relays: &[Relay], first: &Stage) -> Result<List<Piece>, OutOfMemory>
    requires { first.now.node < length relays.now }
    ensures { IfOk result (λ pieces. map told_piece pieces ≡ logged first.now.near.own (passed_at relays.now first.now.node)) }
{
    let own = first.near.own;
    passed_at(alloc, relays, first.node, own)
}

/// What went in at the far side of the last pair.
fn back_in(alloc: Global, relays: &[Relay], last: &Stage) -> Result<List<Piece>, OutOfMemory>
    requires { last.now.node < length relays.now }
    ensures { IfOk result (λ pieces. map told_piece pieces ≡ logged last.now.far.own (passed_at relays.now last.now.node)) }
{
    let own = last.far.own;
    passed_at(alloc, relays, last.node, own)
}

/// What came out at the far end.
fn forth_out(
    alloc: Global,
    plan: &Plan,
    links: &[Link],
    last: &Stage,
) -> Result<List<Piece>, OutOfMemory>
    requires { last.now.node < length plan.now.nodes }
    ensures { IfOk result (λ pieces. map told_piece pieces
        ≡ pieces_in last.now.far.remote (delivered_by links.now (point_of plan.now last.now.node) last.now.far.point)) }
{
    let from = plan.point_of(last.node);
    let to = last.far.point;
    let remote = last.far.remote;
    handed(alloc, links, from, to, remote)
}

/// What came out at the end that the line begins at.
fn back_out(
    alloc: Global,
    plan: &Plan,
    links: &[Link],
    point: PointCode,
    first: &Stage,
) -> Result<List<Piece>, OutOfMemory>
    requires { first.now.node < length plan.now.nodes }
    ensures { IfOk result (λ pieces. map told_piece pieces
        ≡ pieces_in first.now.near.remote (delivered_by links.now (point_of plan.now first.now.node) point)) }
{
    let from = plan.point_of(first.node);
    let remote = first.near.remote;
    handed(alloc, links, from, point, remote)
}

/// The line over these pairs, of which the first and the last are given again.
fn line_over(
    alloc: Global,
    plan: &Plan,
    relays: &[Relay],
    links: &[Link],
    point: PointCode,
    path: &[Stage],
    first: &Stage,
    last: &Stage,
) -> Result<Line, OutOfMemory>
    requires count { length relays.now ≡ length plan.now.nodes }
    requires first { first.now.node < length plan.now.nodes }
    requires last { last.now.node < length plan.now.nodes }
    ensures value { IfOk result (λ line. told_line plan.now line ≡ over plan.now relays.now links.now point path.now first.now last.now) }
    ensures path { IfOk result (λ line. line.path ≡ map (λ stage. stage.node) path.now) }
{
    let far = last.far.point;
    let path = nodes_of(alloc, path)?;
    let forth_in = forth_in(alloc, relays, first)?;
    let forth_out = forth_out(alloc, plan, links, last)?;
    let back_in = back_in(alloc, relays, last)?;
    let back_out = back_out(alloc, plan, links, point, first)?;
    Ok(Line {
        path,
        far,
        forth_in,
        forth_out,
        back_in,
        back_out,
    })
}

/// The line over pairs that follow one another. There is none without a pair.
pub(crate) fn line_along(
    alloc: Global,
    plan: &Plan,
    relays: &[Relay],
    links: &[Link],
    point: PointCode,
    path: &[Stage],
) -> Result<Option<Line>, OutOfMemory>
    requires count { length relays.now ≡ length plan.now.nodes }
    requires inside { All (λ stage. stage.node < length plan.now.nodes) path.now }
    ensures value { IfOk result (λ line. option_map (told_line plan.now) line ≡ line_by plan.now relays.now links.now point
        (Some path.now)) }
    ensures inside { IfOk result (λ line. IfSome line (λ l. All (λ node. node < length plan.now.nodes) l.path)) }
{
    if path.is_empty() {
        return Ok(None);
    }
    let first = &path[0];
    let place = path.len() - 1;
    let last = &path[place];
    let line = line_over(alloc, plan, relays, links, point, path, first, last)?;
    Ok(Some(line))
}
