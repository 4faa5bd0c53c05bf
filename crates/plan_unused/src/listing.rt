//! What is unused, by what was noted.
ghost use Rattle.std.specs.Prelude.{◌≡◌, ◌+◌, ◌<◌, length, IfOk, OnOk};
ghost use Rattle.plan_model.specs.Network.{IsPlan};
ghost use Rattle.plan_unused.specs.Uses.{UsesRelay, UsesRow};
ghost use Rattle.plan_unused.specs.Surveys.{ListsRelays, ListsRows, ListsTargets, ListsGaps};
ghost use Rattle.plan_unused.specs.Walks.{IsSeen, IsWhole};
ghost use Rattle.plan_unused.specs.Listed.{RelaysSoFar, RowsSoFar, TargetsSoFar, HasCount, HasPlace, HasTarget, HasTargetCount};

use crate::seen::Seen;
use crate::survey::{Gap, RowPlace, TargetPlace};
use plan_model::{Node, Plan};
use sccp_base::{List, OutOfMemory};
use std::alloc::Global;

/// How many nodes the plan has.
fn node_count(plan: &Plan) -> u8
    ensures count { result ≡ length plan.now.nodes }
    ensures sound { IsPlan plan.now }
{
    plan.nodes().as_slice().len() as u8
}

/// The relays that no covered title gets to.
pub(crate) fn unused_relays(
    alloc: Global,
    plan: &Plan,
    seen: &Seen,
) -> Result<List<u8>, OutOfMemory>
    requires seen { IsSeen plan.now seen.now }
    requires whole { IsWhole plan.now seen.now }
    ensures { IfOk result (ListsRelays plan.now) }
{
    let mut found = List::new(alloc);
    for node in 0..node_count(plan) {
        add_relay(plan, node, seen, &mut found)?;
    }
    Ok(found)
}

/// Adds a relay if it is unused.
fn add_relay(plan: &Plan, node: u8, seen: &Seen, found: &mut List<u8>) -> Result<(), OutOfMemory>
    requires node { node < length plan.now.nodes }
    requires seen { IsSeen plan.now seen.now }
    requires whole { IsWhole plan.now seen.now }
    requires so_far { RelaysSoFar plan.now node found.old }
    ensures { OnOk result (RelaysSoFar plan.now (node + 1) found.new) }
{
    if seen.has_relay(node) {
        return Ok(());
    }
    found.push(node)?;
    Ok(())
}

/// The rows of used relays that count for no covered title.
pub(crate) fn unused_rows(
    alloc: Global,
    plan: &Plan,
    seen: &Seen,
) -> Result<List<RowPlace>, OutOfMemory>
    requires seen { IsSeen plan.now seen.now }
    requires whole { IsWhole plan.now seen.now }
    ensures { IfOk result (ListsRows plan.now) }
{
    let mut found = List::new(alloc);
    for node in 0..node_count(plan) {
        add_rows(plan, node, seen, &mut found)?;
    }
    Ok(found)
}

/// How many rows a node has.
fn row_count(plan: &Plan, node: u8) -> u32
    requires { node < length plan.now.nodes }
    ensures { HasCount plan.now node result }
{
    plan.nodes().as_slice()[usize::from(node)].table.len() as u32
}

/// Adds the unused rows of a node.
fn add_rows(
    plan: &Plan,
    node: u8,
    seen: &Seen,
    found: &mut List<RowPlace>,
) -> Result<(), OutOfMemory>
    requires node { node < length plan.now.nodes }
    requires seen { IsSeen plan.now seen.now }
    requires whole { IsWhole plan.now seen.now }
    requires so_far { RowsSoFar plan.now node 0 found.old }
    ensures { OnOk result (RowsSoFar plan.now (node + 1) 0 found.new) }
{
    if !seen.has_relay(node) {
        return Ok(());
    }
    for row in 0..row_count(plan, node) {
        add_row(plan, RowPlace { node, row }, seen, found)?;
    }
    Ok(())
}

/// Adds a row of a used relay if it is unused.
fn add_row(
    plan: &Plan,
    place: RowPlace,
    seen: &Seen,
    found: &mut List<RowPlace>,
) -> Result<(), OutOfMemory>
    requires place { HasPlace plan.now place }
    requires relay { UsesRelay plan.now place.node }
    requires seen { IsSeen plan.now seen.now }
    requires whole { IsWhole plan.now seen.now }
    requires so_far { RowsSoFar plan.now place.node place.row found.old }
    ensures { OnOk result (RowsSoFar plan.now place.node (place.row + 1) found.new) }
{
    if seen.has_row(place) {
        return Ok(());
    }
    found.push(place)?;
    Ok(())
}

/// The targets of used rows that no covered title takes.
pub(crate) fn unused_targets(
    alloc: Global,
    plan: &Plan,
    seen: &Seen,
) -> Result<List<TargetPlace>, OutOfMemory>
    requires seen { IsSeen plan.now seen.now }
    requires whole { IsWhole plan.now seen.now }
    ensures { IfOk result (ListsTargets plan.now) }
{
    let mut found = List::new(alloc);
    for node in 0..node_count(plan) {
        add_targets(plan, node, seen, &mut found)?;
    }
    Ok(found)
}

/// Adds the unused targets of a node.
fn add_targets(
    plan: &Plan,
    node: u8,
    seen: &Seen,
    found: &mut List<TargetPlace>,
) -> Result<(), OutOfMemory>
    requires node { node < length plan.now.nodes }
    requires seen { IsSeen plan.now seen.now }
    requires whole { IsWhole plan.now seen.now }
    requires so_far { TargetsSoFar plan.now node 0 0 found.old }
    ensures { OnOk result (TargetsSoFar plan.now (node + 1) 0 0 found.new) }
{
    for row in 0..row_count(plan, node) {
        add_row_targets(plan, RowPlace { node, row }, seen, found)?;
    }
    Ok(())
}

/// How many targets a row has.
fn target_count(plan: &Plan, place: RowPlace) -> u8
    requires { HasPlace plan.now place }
    ensures { HasTargetCount plan.now place result }
{
    plan.nodes().as_slice()[usize::from(place.node)]
        .table
        .row(place.row as usize)
        .target_count()
}

/// Adds the unused targets of a row.
fn add_row_targets(
    plan: &Plan,
    place: RowPlace,
    seen: &Seen,
    found: &mut List<TargetPlace>,
) -> Result<(), OutOfMemory>
    requires place { HasPlace plan.now place }
    requires seen { IsSeen plan.now seen.now }
    requires whole { IsWhole plan.now seen.now }
    requires so_far { TargetsSoFar plan.now place.node place.row 0 found.old }
    ensures { OnOk result (TargetsSoFar plan.now place.node (place.row + 1) 0 found.new) }
{
    if !seen.has_row(place) {
        return Ok(());
    }
    for target in 0..target_count(plan, place) {
        let one = TargetPlace {
            node: place.node,
            row: place.row,
            target,
        };
        add_target(plan, one, seen, found)?;
    }
    Ok(())
}

/// Adds a target of a used row if it is unused.
fn add_target(
    plan: &Plan,
    place: TargetPlace,
    seen: &Seen,
    found: &mut List<TargetPlace>,
) -> Result<(), OutOfMemory>
    requires place { HasTarget plan.now place }
    requires row { UsesRow plan.now place.node place.row }
    requires seen { IsSeen plan.now seen.now }
    requires whole { IsWhole plan.now seen.now }
    requires so_far { TargetsSoFar plan.now place.node place.row place.target found.old }
    ensures { OnOk result (TargetsSoFar plan.now place.node place.row (place.target + 1) found.new) }
{
    if seen.has_target(place) {
        return Ok(());
    }
    found.push(place)?;
    Ok(())
}

/// One title without a row for each cover that has one.
pub(crate) fn gaps(alloc: Global, plan: &Plan, seen: &Seen) -> Result<List<Gap>, OutOfMemory>
    requires seen { IsSeen plan.now seen.now }
    requires whole { IsWhole plan.now seen.now }
    ensures { IfOk result (ListsGaps plan.now) }
{
    let mut found = List::new(alloc);
    let count = plan.covers().as_slice().len() as u32;
    for cover in 0..count {
        if let Some(spot) = seen.gap(cover) {
            found.push(Gap { cover, spot })?;
        }
    }
    Ok(found)
}
