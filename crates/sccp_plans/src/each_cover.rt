//! The command that gives a verdict on each cover of a plan by itself.
ghost use Rattle.std.specs.Prelude.{◌≡◌, ◌+◌, ◌<◌, ◌≤◌, [], ◌∷◌, IfOk};
ghost use Rattle.plan_model.specs.Network.{IsPlan, network_within};
ghost use Rattle.plan_verify.specs.Lawful.{IsLawful, plan_of};
ghost use Rattle.sccp_report.specs.Covers.{cover_text};
ghost use Rattle.sccp_plans.specs.Covers.{covers_work, GivesNext, GivesTally};
ghost use Rattle.sccp_plans.specs.Tallies.{total};
ghost use Rattle.sccp_work.specs.Ending.{Works};
ghost use Rattle.sccp_work.specs.Moment.{Moment, moment, with_sink};
ghost use Rattle.sccp_work.specs.Writing.{Writes};

use crate::tally::Tally;
use plan_model::{Cover, Limits, Node, Plan};
use plan_verify::Verdict;
use sccp_base::List;
use sccp_io::{Files, Sink};
use sccp_report::cover_text;
use sccp_work::{PlanPath, Status, Stop, plan_of, print_last, put_all, with_plan};
use std::alloc::Global;

/// Prints the verdict on each cover of the plan of a file by itself, and their tally.
pub fn covers<F: Files, K: Sink>(
    alloc: Global,
    file: &PlanPath<'_>,
    files: &mut F,
    out: &mut K,
) -> Result<Status, Stop>
    ensures { Works (covers_work file.now) result
        (moment F.contents F.sound F.faults K.taken K.faults files.old out.old)
        (moment F.contents F.sound F.faults K.taken K.faults files.new out.new) }
{
    let plan = with_plan(alloc, file, files, out)?;
    let tally = judge_covers(alloc, plan, out)?;
    let line = tally.line(alloc)?;
    print_last(out, line.as_slice(), tally.status())
}

/// The relays of a plan, and the tally of the verdicts on its covers so far.
#[derive(Drop)]
struct Judging {
    nodes: List<Node>,
    tally: Tally,
}

/// Prints the verdict on each cover of a plan by itself. No file is read, so the clause holds whatever the files show.
fn judge_covers<K: Sink>(alloc: Global, plan: Plan, out: &mut K) -> Result<Tally, Stop>
    ensures gives { (any : Moment) → GivesTally plan result
        (with_sink any K.taken K.faults out.old) (with_sink any K.taken K.faults out.new) }
    ensures few { IfOk result (λ tally. total tally ≤ 65535) }
{
    let limits = plan.limits();
    let (nodes, covers) = plan.into_parts();
    let mut judging = Judging {
        nodes,
        tally: Tally::NONE,
    };
    let mut number: u16 = 0;
    for cover in covers.into_vec() {
        judging = judge_cover(alloc, limits, judging, cover, number, out)?;
        number += 1;
    }
    let Judging { nodes, tally } = judging;
    drop(nodes);
    Ok(tally)
}

/// Prints the verdict on the cover of this number by itself, and counts it. The relays go into the plan with it alone, and are
/// given back.
fn judge_cover<K: Sink>(
    alloc: Global,
    limits: Limits,
    judging: Judging,
    cover: Cover,
    number: u16,
    out: &mut K,
) -> Result<Judging, Stop>
    requires plan { IsPlan (network_within limits judging.nodes (cover ∷ [])) }
    requires few { total judging.tally < 65535 }
    ensures gives { (any : Moment) → GivesNext limits judging.nodes number cover judging.tally result
        (with_sink any K.taken K.faults out.old) (with_sink any K.taken K.faults out.new) }
    ensures nodes { IfOk result (λ next. next.nodes ≡ judging.nodes) }
    ensures one_more { IfOk result (λ next. total next.tally ≡ total judging.tally + 1) }
{
    let Judging { nodes, tally } = judging;
    let plan = Plan::alone(alloc, limits, nodes, cover)?;
    let verdict = plan_verify::verify(alloc, plan)?;
    match print_verdict(alloc, number, &verdict, out) {
        Ok(()) => {
            let tally = tally.counted(&verdict);
            let (nodes, covers) = verdict.into_plan().into_parts();
            drop(covers);
            Ok(Judging { nodes, tally })
        }
        Err(stop) => {
            drop(verdict);
            Err(stop)
        }
    }
}

/// Prints the verdict on the plan with only the cover of this number.
fn print_verdict<K: Sink>(
    alloc: Global,
    number: u16,
    verdict: &Verdict,
    out: &mut K,
) -> Result<(), Stop>
    requires plan { IsPlan (plan_of verdict.now) }
    requires lawful { IsLawful (plan_of verdict.now) verdict.now }
    ensures { Writes (cover_text number (plan_of verdict.now) verdict.now) result (K.taken out.old) (K.taken out.new) (K.faults out.old)
        (K.faults out.new) }
{
    let text = cover_text(alloc, number, plan_of(verdict), verdict)?;
    put_all(out, text.as_slice())
}
