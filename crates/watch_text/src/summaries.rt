//! What is said at the end of a capture.
ghost use Rattle.std.specs.Prelude.{◌≡◌, ◌++◌, OnOk};
ghost use Rattle.std.specs.List.{flat_map};
ghost use Rattle.sccp_report.specs.Hops.{node_text};
ghost use Rattle.watch_text.specs.Lines.{unanswered_line};
ghost use Rattle.watch_text.specs.Summaries.{counted, sent_counts, unanswered_count, other_counts, counts_line, target_line};
ghost use Rattle.watch_text.specs.Summaries.{target_lines, row_lines, tally_lines, relay_lines, end_line, summary_text};

use crate::lines::put_unanswered;
use crate::put::put_number;
use plan_model::Plan;
use relay_watch::{Counts, Summary, Tally, Unanswered};
use sccp_base::{List, OutOfMemory};
use sccp_report::Text;

/// Appends a count after its name.
#[tactic(auto, unfolding(crate::specs::Summaries::counted))]
fn put_counted(text: &mut Text, name: &[u8], count: u64) -> Result<(), OutOfMemory>
    ensures { OnOk result (text.new ≡ text.old ++ counted name.now count) }
{
    text.put(name)?;
    put_number(text, count)
}

#[tactic(auto, unfolding(crate::specs::Summaries::sent_counts))]
fn put_sent_counts(text: &mut Text, counts: &Counts) -> Result<(), OutOfMemory>
    ensures { OnOk result (text.new ≡ text.old ++ sent_counts counts.now) }
{
    put_counted(text, b" sent ", counts.sent)?;
    put_counted(text, b" plain ", counts.plain)?;
    put_counted(text, b" failing ", counts.failing)?;
    put_counted(text, b" unexplained ", counts.unexplained)
}

#[tactic(auto, unfolding(crate::specs::Summaries::unanswered_count))]
fn put_unanswered_count(text: &mut Text, counts: &Counts) -> Result<(), OutOfMemory>
    ensures { OnOk result (text.new ≡ text.old ++ unanswered_count counts.now) }
{
    put_counted(text, b" unanswered ", counts.unanswered)
}

#[tactic(auto, unfolding(crate::specs::Summaries::other_counts))]
fn put_other_counts(text: &mut Text, counts: &Counts) -> Result<(), OutOfMemory>
    ensures { OnOk result (text.new ≡ text.old ++ other_counts counts.now) }
{
    put_unanswered_count(text, counts)?;
    put_counted(text, b" others ", counts.others)?;
    put_counted(text, b" markings ", counts.markings)
}

/// Appends the counts of the relay with this name.
#[tactic(auto, unfolding(crate::specs::Summaries::counts_line))]
fn put_counts(text: &mut Text, name: &[u8], counts: &Counts) -> Result<(), OutOfMemory>
    ensures { OnOk result (text.new ≡ text.old ++ counts_line name.now counts.now) }
{
    text.put(b"relay ")?;
    text.put(name)?;
    put_counted(text, b" arrived ", counts.arrived)?;
    put_sent_counts(text, counts)?;
    put_other_counts(text, counts)?;
    text.put(b"\n")
}

/// Appends how often a target was taken.
#[tactic(auto, unfolding(crate::specs::Summaries::target_line))]
fn put_target(
    text: &mut Text,
    name: &[u8],
    row: usize,
    target: usize,
    count: u64,
) -> Result<(), OutOfMemory>
    ensures { OnOk result (text.new ≡ text.old ++ target_line name.now row target count) }
{
    text.put(b"relay ")?;
    text.put(name)?;
    text.put(b" target ")?;
    text.put_count(row)?;
    text.put(b"/")?;
    text.put_count(target)?;
    put_counted(text, b" taken ", count)?;
    text.put(b"\n")
}

/// Appends the targets of a row.
fn put_targets(text: &mut Text, name: &[u8], row: usize, counts: &[u64]) -> Result<(), OutOfMemory>
    ensures { OnOk result (text.new ≡ text.old ++ target_lines name.now row 0 counts.now) }
{
    for (target, count) in counts.iter().enumerate() {
        put_target(text, name, row, target, *count)?;
    }
    Ok(())
}

/// Appends the rows of a relay.
fn put_rows(text: &mut Text, name: &[u8], rows: &[List<u64>]) -> Result<(), OutOfMemory>
    ensures { OnOk result (text.new ≡ text.old ++ row_lines name.now 0 rows.now) }
{
    for (row, counts) in rows.iter().enumerate() {
        put_targets(text, name, row, counts.as_slice())?;
    }
    Ok(())
}

/// Appends what is kept of the relay with this name.
#[tactic(auto, unfolding(crate::specs::Summaries::tally_lines))]
fn put_tally(text: &mut Text, name: &[u8], tally: &Tally) -> Result<(), OutOfMemory>
    ensures { OnOk result (text.new ≡ text.old ++ tally_lines name.now tally.now) }
{
    put_counts(text, name, &tally.counts)?;
    put_rows(text, name, tally.taken.as_slice())
}

/// The name of the relay at a place of the plan. A place without a relay has no name.
#[tactic(auto, unfolding(sccp_report::specs::Hops::node_text))]
fn name_at(plan: &Plan, node: usize) -> &[u8]
    ensures { result.now ≡ node_text plan.now node }
{
    match plan.nodes().as_slice().get(node) {
        Some(relay) => relay.name.as_slice(),
        None => &[],
    }
}

/// Appends what is kept of each relay.
fn put_relays(text: &mut Text, plan: &Plan, relays: &[Tally]) -> Result<(), OutOfMemory>
    ensures { OnOk result (text.new ≡ text.old ++ relay_lines plan.now 0 relays.now) }
{
    for (node, tally) in relays.iter().enumerate() {
        put_tally(text, name_at(plan, node), tally)?;
    }
    Ok(())
}

fn put_all_unanswered(text: &mut Text, plan: &Plan, found: &[Unanswered]) -> Result<(), OutOfMemory>
    ensures { OnOk result (text.new ≡ text.old ++ flat_map (unanswered_line plan.now) found.now) }
{
    for one in found {
        put_unanswered(text, plan, one)?;
    }
    Ok(())
}

#[tactic(auto, unfolding(crate::specs::Summaries::end_line))]
fn put_end(text: &mut Text, events: u64, unexplained: u64) -> Result<(), OutOfMemory>
    ensures { OnOk result (text.new ≡ text.old ++ end_line events unexplained) }
{
    put_counted(text, b"end ", events)?;
    put_counted(text, b" unexplained ", unexplained)?;
    text.put(b"\n")
}

/// Appends the arrivals that nothing answered, what is counted of each relay and of each target of its rows, and the last line. After an
/// error the end of the text is not specified.
#[tactic(auto, unfolding(crate::specs::Summaries::summary_text))]
pub fn put_summary(text: &mut Text, plan: &Plan, summary: &Summary) -> Result<(), OutOfMemory>
    ensures { OnOk result (text.new ≡ text.old ++ summary_text plan.now summary.now) }
{
    put_all_unanswered(text, plan, summary.unanswered.as_slice())?;
    put_relays(text, plan, summary.relays.as_slice())?;
    put_end(text, summary.events, summary.unexplained)
}
