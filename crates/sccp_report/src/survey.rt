//! The text of what a plan has and no covered title uses.
ghost use Rattle.std.specs.Prelude.{◌≡◌, ◌<◌, [], ◌++◌, length, All, OnOk, IfOk};
ghost use Rattle.std.specs.List.{flat_map};
ghost use Rattle.std.specs.Option.{option_copied, option_map_or};
ghost use Rattle.plan_model.specs.Steps.{step};
ghost use Rattle.sccp_report.specs.Hops.{step_text};
ghost use Rattle.sccp_report.specs.Surveys.{row_text, row_at, at_node, at_row, last_number, unused_relay_line, unused_row_line};
ghost use Rattle.sccp_report.specs.Surveys.{unused_target_line, needless_line, gap_line, relays_words, covers_words, totals_line};
ghost use Rattle.sccp_report.specs.Surveys.{unused_text, survey_text, HasGapsIn};

use crate::hop::{put_spot, put_step};
use crate::limits::put_too_wide;
use crate::node::put_node;
use crate::text::Text;
use crate::values::{put_digits, put_number_or_dash, put_selector};
use plan_model::{Plan, Spot, step};
use plan_rules::Row;
use plan_unused::{Gap, Needless, RowPlace, Survey, TargetPlace, Unused};
use sccp_base::{Marking, Octets, OutOfMemory};
use std::alloc::Global;

/// Appends a row's selector, its subsystem number and its prefix.
#[tactic(auto, unfolding(crate::specs::Surveys::row_text))]
fn put_row(text: &mut Text, row: &Row) -> Result<(), OutOfMemory>
    ensures { OnOk result (text.new ≡ text.old ++ row_text row.now) }
{
    put_selector(text, &row.selector())?;
    text.put(b" ")?;
    put_number_or_dash(text, row.ssn())?;
    text.put(b" ")?;
    put_digits(text, row.prefix())
}

/// The row at a place of the plan.
fn row_at(plan: &Plan, place: RowPlace) -> Option<&Row>
    ensures { option_copied result ≡ row_at plan.now place }
{
    match plan.nodes().as_slice().get(usize::from(place.node)) {
        Some(node) => node.table.rows().get(place.row as usize),
        None => None,
    }
}

/// Appends the row at a place of the plan. A place without a row has no text.
fn put_row_at(text: &mut Text, plan: &Plan, place: RowPlace) -> Result<(), OutOfMemory>
    ensures { OnOk result (text.new ≡ text.old ++ option_map_or row_text (row_at plan.now place) []) }
{
    match row_at(plan, place) {
        Some(row) => put_row(text, row),
        None => Ok(()),
    }
}

/// Appends the name of a node after these words.
#[tactic(auto, unfolding(crate::specs::Surveys::at_node))]
fn put_at_node(text: &mut Text, words: &[u8], plan: &Plan, node: u8) -> Result<(), OutOfMemory>
    ensures { OnOk result (text.new ≡ text.old ++ at_node words.now plan.now node) }
{
    text.put(words)?;
    put_node(text, plan, node)
}

/// Appends the name of a node after these words, and the place of a row in its table.
#[tactic(auto, unfolding(crate::specs::Surveys::at_row))]
fn put_at_row(
    text: &mut Text,
    words: &[u8],
    plan: &Plan,
    node: u8,
    row: u32,
) -> Result<(), OutOfMemory>
    ensures { OnOk result (text.new ≡ text.old ++ at_row words.now plan.now node row) }
{
    put_at_node(text, words, plan, node)?;
    text.put_numbered(b" ", row)
}

/// Appends the last number of a line.
#[tactic(auto, unfolding(crate::specs::Surveys::last_number))]
fn put_last_number(text: &mut Text, name: &[u8], number: usize) -> Result<(), OutOfMemory>
    ensures { OnOk result (text.new ≡ text.old ++ last_number name.now number) }
{
    text.put_counted(name, number)?;
    text.put(b"\n")
}

#[tactic(auto, unfolding(crate::specs::Surveys::unused_relay_line))]
fn put_relay(text: &mut Text, plan: &Plan, node: u8) -> Result<(), OutOfMemory>
    ensures { OnOk result (text.new ≡ text.old ++ unused_relay_line plan.now node) }
{
    put_at_node(text, b"unused relay ", plan, node)?;
    text.put(b"\n")
}

#[tactic(auto, unfolding(crate::specs::Surveys::unused_row_line))]
fn put_unused_row(text: &mut Text, plan: &Plan, place: RowPlace) -> Result<(), OutOfMemory>
    ensures { OnOk result (text.new ≡ text.old ++ unused_row_line plan.now place) }
{
    put_at_row(text, b"unused row ", plan, place.node, place.row)?;
    text.put(b" ")?;
    put_row_at(text, plan, place)?;
    text.put(b"\n")
}

#[tactic(auto, unfolding(crate::specs::Surveys::unused_target_line))]
fn put_target(text: &mut Text, plan: &Plan, place: TargetPlace) -> Result<(), OutOfMemory>
    ensures { OnOk result (text.new ≡ text.old ++ unused_target_line plan.now place) }
{
    put_at_row(text, b"unused target ", plan, place.node, place.row)?;
    put_last_number(text, b" ", usize::from(place.target))
}

#[tactic(auto, unfolding(crate::specs::Surveys::needless_line))]
fn put_needless(text: &mut Text, needless: Needless) -> Result<(), OutOfMemory>
    ensures { OnOk result (text.new ≡ text.old ++ needless_line needless) }
{
    text.put_numbered(b"unused cover ", u32::from(needless.cover))?;
    put_last_number(text, b" within ", usize::from(needless.within))
}

/// Appends what a relay does with a title while nothing is prohibited.
fn put_step_of(alloc: Global, text: &mut Text, plan: &Plan, spot: &Spot) -> Result<(), OutOfMemory>
    requires { spot.now.node < length plan.now.nodes }
    ensures { OnOk result (text.new ≡ text.old ++ step_text plan.now (step plan.now spot.now [])) }
{
    let nothing = Marking::new(alloc);
    let step = step(alloc, plan, spot, &nothing)?;
    put_step(text, plan, &step)
}

#[tactic(auto, unfolding(crate::specs::Surveys::gap_line))]
fn put_gap(alloc: Global, text: &mut Text, plan: &Plan, gap: &Gap) -> Result<(), OutOfMemory>
    requires { gap.now.spot.node < length plan.now.nodes }
    ensures { OnOk result (text.new ≡ text.old ++ gap_line plan.now gap.now) }
{
    text.put_numbered(b"gap cover ", gap.cover)?;
    put_step_of(alloc, text, plan, &gap.spot)?;
    text.put(b" ")?;
    put_spot(text, plan, &gap.spot)?;
    text.put(b"\n")
}

/// Appends how many relays are unused.
#[tactic(auto, unfolding(crate::specs::Surveys::relays_words))]
fn put_relay_count(text: &mut Text, relays: usize) -> Result<(), OutOfMemory>
    ensures { OnOk result (text.new ≡ text.old ++ relays_words relays) }
{
    text.put(b"unused ")?;
    text.put_counted(b"relays ", relays)
}

/// Appends how many targets and covers are unused.
#[tactic(auto, unfolding(crate::specs::Surveys::covers_words))]
fn put_cover_counts(text: &mut Text, targets: usize, covers: usize) -> Result<(), OutOfMemory>
    ensures { OnOk result (text.new ≡ text.old ++ covers_words targets covers) }
{
    text.put_counted(b" targets ", targets)?;
    text.put_counted(b" covers ", covers)
}

fn put_totals(text: &mut Text, found: &Unused) -> Result<(), OutOfMemory>
    ensures { OnOk result (text.new ≡ text.old ++ totals_line found.now) }
{
    put_relay_count(text, found.relays.as_slice().len())?;
    text.put_counted(b" rows ", found.rows.as_slice().len())?;
    put_cover_counts(
        text,
        found.targets.as_slice().len(),
        found.covers.as_slice().len(),
    )?;
    put_last_number(text, b" gaps ", found.gaps.as_slice().len())
}

fn put_relays(text: &mut Text, plan: &Plan, relays: &[u8]) -> Result<(), OutOfMemory>
    ensures { OnOk result (text.new ≡ text.old ++ flat_map (unused_relay_line plan.now) relays.now) }
{
    for node in relays {
        put_relay(text, plan, *node)?;
    }
    Ok(())
}

fn put_rows(text: &mut Text, plan: &Plan, rows: &[RowPlace]) -> Result<(), OutOfMemory>
    ensures { OnOk result (text.new ≡ text.old ++ flat_map (unused_row_line plan.now) rows.now) }
{
    for place in rows {
        put_unused_row(text, plan, *place)?;
    }
    Ok(())
}

fn put_targets(text: &mut Text, plan: &Plan, targets: &[TargetPlace]) -> Result<(), OutOfMemory>
    ensures { OnOk result (text.new ≡ text.old ++ flat_map (unused_target_line plan.now) targets.now) }
{
    for place in targets {
        put_target(text, plan, *place)?;
    }
    Ok(())
}

fn put_covers(text: &mut Text, covers: &[Needless]) -> Result<(), OutOfMemory>
    ensures { OnOk result (text.new ≡ text.old ++ flat_map needless_line covers.now) }
{
    for needless in covers {
        put_needless(text, *needless)?;
    }
    Ok(())
}

fn put_gaps(alloc: Global, text: &mut Text, plan: &Plan, gaps: &[Gap]) -> Result<(), OutOfMemory>
    requires { All (λ gap. gap.spot.node < length plan.now.nodes) gaps.now }
    ensures { OnOk result (text.new ≡ text.old ++ flat_map (gap_line plan.now) gaps.now) }
{
    for gap in gaps {
        put_gap(alloc, text, plan, gap)?;
    }
    Ok(())
}

/// Appends a line for each part that is unused and for each gap, and how many there are.
fn put_unused(
    alloc: Global,
    text: &mut Text,
    plan: &Plan,
    found: &Unused,
) -> Result<(), OutOfMemory>
    requires { All (λ gap. gap.spot.node < length plan.now.nodes) found.now.gaps }
    ensures { OnOk result (text.new ≡ text.old ++ unused_text plan.now found.now) }
{
    put_relays(text, plan, found.relays.as_slice())?;
    put_rows(text, plan, found.rows.as_slice())?;
    put_targets(text, plan, found.targets.as_slice())?;
    put_covers(text, found.covers.as_slice())?;
    put_gaps(alloc, text, plan, found.gaps.as_slice())?;
    put_totals(text, found)
}

/// What no covered title of a plan uses, and one title for each cover of which some title gets to a relay without a row for it. The
/// last line has how many there are of each.
pub fn survey_text(alloc: Global, plan: &Plan, survey: &Survey) -> Result<Octets, OutOfMemory>
    requires { HasGapsIn plan.now survey.now }
    ensures { IfOk result (λ text. text ≡ survey_text plan.now survey.now) }
{
    let mut text = Text::new(alloc);
    match survey {
        Survey::Unused(found) => put_unused(alloc, &mut text, plan, found)?,
        Survey::TooWide => put_too_wide(&mut text, plan.limits())?,
    }
    Ok(text.into_octets())
}
