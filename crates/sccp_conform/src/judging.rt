//! The judgement on items, and on a text.
ghost use Rattle.std.specs.Prelude.{◌≡◌, ◌++◌, [], List, IfOk, OnOk};
ghost use Rattle.plan_model.specs.Network.{Network};
ghost use Rattle.relay_watch.specs.Kept.{nothing_kept, summary_of};
ghost use Rattle.relay_watch.specs.Runs.{AreJudged};
ghost use Rattle.relay_watch.specs.Watching.{AreWatched};
ghost use Rattle.sccp_conform.specs.Reports.{refused_text, point_text, empty_text, status_for, work_on};
ghost use Rattle.sccp_conform.specs.Reports.{IsReport, IsAnswerTo};
ghost use Rattle.sccp_conform.specs.Steps.{PutsEvent, PutsItem, PutsItems, Reports};
ghost use Rattle.sccp_work.specs.Ending.{Works};
ghost use Rattle.sccp_work.specs.Judgement.{Judgement, IsJudgement};
ghost use Rattle.sccp_work.specs.LineFault.{bad_line};
ghost use Rattle.sccp_work.specs.Moment.{Moment, with_sink};
ghost use Rattle.sccp_work.specs.declared.status.Status.TheVariants.{BadTrace};
ghost use Rattle.watch_items.specs.Files.{whole, if_read};
ghost use Rattle.watch_items.specs.Items.{items_of};
ghost use Rattle.watch_text.specs.Summaries.{summary_text};

use crate::report::Report;
use m3ua_trace::ImportError;
use plan_model::Plan;
use relay_watch::{Event, Summary, Watch, counted_truly, markings_are_least, unanswered_truly};
use sccp_base::{Octets, OutOfMemory};
use sccp_io::Sink;
use sccp_report::Text;
use sccp_work::{Status, Stop, bad_line, print_last};
use std::alloc::Global;
use trace_text::LineFault;
use watch_items::{Item, items_of};
use watch_text::{put_line, put_summary};

/// Appends that a line is not a DATA message, with the number of the fault.
#[tactic(auto, unfolding(crate::specs::Reports::refused_text))]
fn put_refused(text: &mut Text, number: u32, fault: u8) -> Result<(), OutOfMemory>
    ensures { OnOk result (text.new ≡ text.old ++ refused_text number fault) }
{
    text.put(b"# line ")?;
    text.put_number(number)?;
    text.put(b" refused ")?;
    text.put_number(u32::from(fault))?;
    text.put(b"\n")
}

/// Appends that a line has a point code of more than 14 bits.
#[tactic(auto, unfolding(crate::specs::Reports::point_text))]
fn put_point(text: &mut Text, number: u32) -> Result<(), OutOfMemory>
    ensures { OnOk result (text.new ≡ text.old ++ point_text number) }
{
    text.put(b"# line ")?;
    text.put_number(number)?;
    text.put(b" point\n")
}

/// Appends that a line has no octets for SCCP.
#[tactic(auto, unfolding(crate::specs::Reports::empty_text))]
fn put_empty(text: &mut Text, number: u32) -> Result<(), OutOfMemory>
    ensures { OnOk result (text.new ≡ text.old ++ empty_text number) }
{
    text.put(b"# line ")?;
    text.put_number(number)?;
    text.put(b" empty\n")
}

/// Judges a message, and appends the text of its line.
fn put_event(
    text: &mut Text,
    plan: &Plan,
    watch: &mut Watch,
    packet: Option<u64>,
    event: &Event,
) -> Result<(), OutOfMemory>
    ensures { OnOk result (PutsEvent plan.now packet event.now watch.old watch.new text.old text.new) }
{
    let line = watch.judge(plan, event)?;
    let put = put_line(text, plan, packet, event, &line);
    drop(line);
    put
}

/// Appends the text of an item; a message is judged.
fn put_item(text: &mut Text, plan: &Plan, watch: &mut Watch, item: &Item) -> Result<(), OutOfMemory>
    ensures { OnOk result (PutsItem plan.now item.now watch.old watch.new text.old text.new) }
{
    match item {
        Item::Seen(event) => put_event(text, plan, watch, None, event),
        Item::Refused(number, fault) => put_refused(text, *number, *fault),
        Item::OtherPoint(number) => put_point(text, *number),
        Item::NoOctets(number) => put_empty(text, *number),
        Item::Nothing => Ok(()),
        Item::Captured(packet, event) => put_event(text, plan, watch, Some(*packet), event),
        Item::Note(note) => text.put(note.as_slice()),
    }
}

/// Appends the text of items in their order.
pub fn put_items(
    text: &mut Text,
    plan: &Plan,
    watch: &mut Watch,
    items: &[Item],
) -> Result<(), OutOfMemory>
    ensures { OnOk result (PutsItems plan.now items.now watch.old watch.new text.old text.new) }
{
    for item in items {
        put_item(text, plan, watch, item)?;
    }
    Ok(())
}

/// The answer on what the relays did in all.
fn status_of(summary: &Summary) -> Status
    ensures { result ≡ status_for summary.now.unexplained }
{
    if summary.unexplained == 0 {
        Status::Done
    } else {
        Status::Differs
    }
}

/// Appends what the relays did in all, and gives the answer on their messages.
pub fn finish(text: &mut Text, plan: &Plan, watch: Watch) -> Result<Status, OutOfMemory>
    ensures text { OnOk result (text.new ≡ text.old ++ summary_text plan.now (summary_of watch)) }
    ensures status { IfOk result (λ status. status ≡ status_for (summary_of watch).unexplained) }
{
    let summary = watch.finish()?;
    let status = status_of(&summary);
    let put = put_summary(text, plan, &summary);
    drop(summary);
    put?;
    Ok(status)
}

/// What a watch says of all messages, from the first one on, is a judgement: its arrivals that nothing answered are such, and its counts
/// are those of the lines. The call does nothing; its contract is the law.
pub fn vouch()
    ensures { (plan : Network) (events : List Event) (j : Judgement) → AreJudged plan [] events j.lines j.left.waiting
        → AreWatched plan (nothing_kept plan) events j.lines j.left → IsJudgement plan events j }
{
    unanswered_truly();
    counted_truly();
    markings_are_least();
}

/// Judges items, and appends the whole text. The answer is the status.
fn put_report(
    alloc: Global,
    text: &mut Text,
    plan: &Plan,
    items: &[Item],
) -> Result<Status, OutOfMemory>
    ensures { IfOk result (λ status. Reports plan.now items.now text.old text.new status) }
{
    vouch();
    let mut watch = Watch::new(alloc, plan)?;
    match put_items(text, plan, &mut watch, items) {
        Ok(()) => finish(text, plan, watch),
        Err(refused) => {
            drop(watch);
            Err(refused)
        }
    }
}

/// The report on the items of a text.
fn report(alloc: Global, plan: &Plan, items: &[Item]) -> Result<Report, OutOfMemory>
    ensures { IfOk result (IsReport plan.now (whole items.now)) }
{
    let mut text = Text::new(alloc);
    let status = put_report(alloc, &mut text, plan, items)?;
    Ok(Report {
        status,
        text: text.into_octets(),
    })
}

/// The report on a line that has a fault.
fn bad_report(alloc: Global, fault: LineFault) -> Result<Report, OutOfMemory>
    ensures { IfOk result (λ r. (r.status ≡ BadTrace) × (r.text ≡ bad_line fault)) }
{
    let text = bad_line(alloc, fault)?;
    Ok(Report {
        status: Status::BadTrace,
        text: Octets::from_vec(text),
    })
}

/// The report on a text.
fn answer(alloc: Global, plan: &Plan, text: &[u8]) -> Result<Report, OutOfMemory>
    ensures { IfOk result (IsAnswerTo plan.now (if_read (items_of text.now))) }
{
    match items_of(alloc, text) {
        Ok(items) => {
            let report = report(alloc, plan, items.as_slice());
            drop(items);
            report
        }
        Err(ImportError::Line(fault)) => bad_report(alloc, fault),
        Err(ImportError::Memory) => Err(OutOfMemory),
    }
}

/// Prints what is reported of a text under a plan. No file is read, so the clause holds whatever the files show.
pub fn print_report<K: Sink>(
    alloc: Global,
    plan: &Plan,
    text: &[u8],
    out: &mut K,
) -> Result<Status, Stop>
    ensures { (any : Moment) → Works (work_on plan.now (if_read (items_of text.now))) result
        (with_sink any K.taken K.faults out.old) (with_sink any K.taken K.faults out.new) }
{
    // The call ensures that the plan is sound, which the clause needs.
    let _nodes = plan.nodes();
    let report = answer(alloc, plan, text)?;
    print_last(out, report.text.as_slice(), report.status)
}
