//! The command that says how many losses there can be before a title of a cover is stopped.
ghost use Rattle.std.specs.Prelude.{◌+◌, ◌<◌, ◌≤◌, length, IfOk};
ghost use Rattle.plan_margin.specs.Margins.{IsMargin};
ghost use Rattle.plan_model.specs.Network.{IsPlan};
ghost use Rattle.sccp_report.specs.Margins.{margin_text};
ghost use Rattle.sccp_plans.specs.Margin.{margin_work, GivesNext, GivesTally};
ghost use Rattle.sccp_plans.specs.MarginTallies.{total};
ghost use Rattle.sccp_work.specs.Ending.{Works};
ghost use Rattle.sccp_work.specs.Moment.{Moment, moment, with_sink};
ghost use Rattle.sccp_work.specs.Writing.{Writes};

use crate::loss_limit::LossLimit;
use crate::losses::Losses;
use crate::margin_tally::MarginTally;
use plan_margin::{Margin, find_margin};
use plan_model::Plan;
use sccp_io::{Files, Sink};
use sccp_report::margin_text;
use sccp_work::{PlanPath, Status, Stop, print_last, put_all, with_accepted};
use std::alloc::Global;

/// Prints for each cover of the plan of a file how many losses there can be before a title of the cover is stopped, and what these
/// numbers add up to. The plan has to be accepted.
pub fn margin<F: Files, K: Sink>(
    alloc: Global,
    file: &PlanPath<'_>,
    losses: &Losses,
    files: &mut F,
    out: &mut K,
) -> Result<Status, Stop>
    ensures { Works (margin_work file.now losses.now.limit) result
        (moment F.contents F.sound F.faults K.taken K.faults files.old out.old)
        (moment F.contents F.sound F.faults K.taken K.faults files.new out.new) }
{
    let limit = losses.limit();
    let accepted = with_accepted(alloc, b"", file, files, out)?;
    let tally = measure_covers(alloc, accepted.plan(), limit, out);
    drop(accepted);
    let tally = tally?;
    let line = tally.line(alloc, limit.most)?;
    print_last(out, line.as_slice(), tally.status())
}

/// Prints the margin of each cover of a plan. No file is read, so the clause holds whatever the files show.
fn measure_covers<K: Sink>(
    alloc: Global,
    plan: &Plan,
    limit: &LossLimit,
    out: &mut K,
) -> Result<MarginTally, Stop>
    requires few { limit.now.most ≤ 99 }
    ensures { (any : Moment) → GivesTally plan.now limit.now result
        (with_sink any K.taken K.faults out.old) (with_sink any K.taken K.faults out.new) }
{
    let mut tally = MarginTally::NONE;
    let count = plan.covers().as_slice().len() as u16;
    for number in 0..count {
        tally = measure_cover(alloc, plan, number, limit, tally, out)?;
    }
    Ok(tally)
}

/// Prints the margin of the cover of this number, and counts it.
fn measure_cover<K: Sink>(
    alloc: Global,
    plan: &Plan,
    number: u16,
    limit: &LossLimit,
    tally: MarginTally,
    out: &mut K,
) -> Result<MarginTally, Stop>
    requires plan { IsPlan plan.now }
    requires cover { number < length plan.now.covers }
    requires few { limit.now.most ≤ 99 }
    requires counted { total tally ≤ number }
    ensures gives { (any : Moment) → GivesNext plan.now limit.now number tally result
        (with_sink any K.taken K.faults out.old) (with_sink any K.taken K.faults out.new) }
    ensures one_more { IfOk result (λ next. total next ≤ number + 1) }
{
    let margin = find_margin(alloc, plan, number, limit.kinds, limit.most)?;
    match print_margin(alloc, number, plan, limit, &margin, out) {
        Ok(()) => {
            let next = tally.counted(&margin);
            drop(margin);
            Ok(next)
        }
        Err(stop) => {
            drop(margin);
            Err(stop)
        }
    }
}

/// Prints a margin of the cover of this number.
fn print_margin<K: Sink>(
    alloc: Global,
    number: u16,
    plan: &Plan,
    limit: &LossLimit,
    margin: &Margin,
    out: &mut K,
) -> Result<(), Stop>
    requires plan { IsPlan plan.now }
    requires lawful { IsMargin plan.now limit.now.kinds number limit.now.most margin.now }
    ensures { Writes (margin_text number plan.now limit.now.most margin.now) result (K.taken out.old) (K.taken out.new) (K.faults out.old)
        (K.faults out.new) }
{
    let text = margin_text(alloc, number, plan, limit.most, margin)?;
    put_all(out, text.as_slice())
}
