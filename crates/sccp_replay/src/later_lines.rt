//! The lines on the plans of a replay.
ghost use Rattle.std.specs.Prelude.{◌≡◌, ◌++◌, codes, false, IfOk, OnOk};
ghost use Rattle.plan_model.specs.Network.{IsPlan};
ghost use Rattle.plan_text.specs.Faults.{is_memory};
ghost use Rattle.plan_verify.specs.Lawful.{IsLawful, plan_of};
ghost use Rattle.sccp_report.specs.Verdicts.{verdict_text};
ghost use Rattle.sccp_replay.specs.LaterPlans.{numbered_plan, first_plan_line, accepted_plan_line, refused_plan_head, bad_plan_line};
ghost use Rattle.sccp_replay.specs.LaterPlans.{other_nodes_line};
ghost use Rattle.sccp_work.specs.Plans.{bad_plan};

use plan_check::Accepted;
use plan_model::{Limits, PlanFault};
use plan_verify::Verdict;
use sccp_base::{Octets, OutOfMemory};
use sccp_report::{Text, accepted_text};
use sccp_work::{bad_plan, lawful_text, plan_of};
use std::alloc::Global;

// The line on an accepted plan of this number, whose file has this name.
fn put_numbered_plan(
    alloc: Global,
    text: &mut Text,
    number: u32,
    name: &str,
    accepted: &Accepted,
) -> Result<(), OutOfMemory>
    ensures { OnOk result (text.new ≡ text.old ++ numbered_plan number name.now accepted.now.bound) }
{
    text.put(b"plan ")?;
    text.put_number(number)?;
    text.put(b" ")?;
    text.put(name.as_bytes())?;
    text.put(b" ")?;
    text.put(accepted_text(alloc, accepted)?.as_slice())
}

/// The line on the first plan, which was accepted.
#[tactic(auto, unfolding(crate::specs::LaterPlans::first_plan_line))]
pub fn first_plan_line(
    alloc: Global,
    name: &str,
    accepted: &Accepted,
) -> Result<Octets, OutOfMemory>
    ensures { IfOk result (λ text. text ≡ first_plan_line name.now accepted.now.bound) }
{
    let mut text = Text::new(alloc);
    put_numbered_plan(alloc, &mut text, 1, name, accepted)?;
    Ok(text.into_octets())
}

/// The line on the later plan of this line of the trace, which was accepted.
#[tactic(auto, unfolding(crate::specs::LaterPlans::accepted_plan_line))]
pub fn accepted_plan_line(
    alloc: Global,
    line: u32,
    number: u32,
    name: &str,
    accepted: &Accepted,
) -> Result<Octets, OutOfMemory>
    ensures { IfOk result (λ text. text ≡ accepted_plan_line line number name.now accepted.now.bound) }
{
    let mut text = Text::new(alloc);
    text.put_number(line)?;
    text.put(b" ")?;
    put_numbered_plan(alloc, &mut text, number, name, accepted)?;
    Ok(text.into_octets())
}

// The words before those on a later plan that was not accepted.
#[tactic(auto, unfolding(crate::specs::LaterPlans::refused_plan_head))]
fn put_head(text: &mut Text, line: u32, name: &str) -> Result<(), OutOfMemory>
    ensures { OnOk result (text.new ≡ text.old ++ refused_plan_head line name.now) }
{
    text.put_number(line)?;
    text.put(b" plan ")?;
    text.put(name.as_bytes())?;
    text.put(b" ")
}

/// The line on a later plan whose text is no plan under limits. Want of memory while it was read says nothing of the text.
#[tactic(auto, unfolding(crate::specs::LaterPlans::bad_plan_line))]
pub fn bad_plan_line(
    alloc: Global,
    line: u32,
    name: &str,
    limits: Limits,
    fault: &PlanFault,
) -> Result<Octets, OutOfMemory>
    ensures line { IfOk result (λ text. text ≡ bad_plan_line line name.now limits fault.now) }
    ensures told { OnOk result (is_memory fault.now ≡ false) }
{
    let mut text = Text::new(alloc);
    put_head(&mut text, line, name)?;
    text.put(bad_plan(alloc, limits, fault)?.as_slice())?;
    Ok(text.into_octets())
}

/// The line on a later plan whose relays are not those of the first plan.
#[tactic(auto, unfolding(crate::specs::LaterPlans::other_nodes_line))]
pub fn other_nodes_line(alloc: Global, line: u32, name: &str) -> Result<Octets, OutOfMemory>
    ensures { IfOk result (λ text. text ≡ other_nodes_line line name.now) }
{
    let mut text = Text::new(alloc);
    put_head(&mut text, line, name)?;
    text.put(b"other nodes\n")?;
    Ok(text.into_octets())
}

/// The text on a later plan that is not accepted, with its verdict.
pub fn refused_plan_text(
    alloc: Global,
    line: u32,
    name: &str,
    verdict: &Verdict,
) -> Result<Octets, OutOfMemory>
    requires plan { IsPlan (plan_of verdict.now) }
    requires lawful { IsLawful (plan_of verdict.now) verdict.now }
    ensures { IfOk result (λ text. text ≡ refused_plan_head line name.now ++ verdict_text (plan_of verdict.now) verdict.now) }
{
    let mut text = Text::new(alloc);
    put_head(&mut text, line, name)?;
    text.put(lawful_text(alloc, plan_of(verdict), verdict)?.as_slice())?;
    Ok(text.into_octets())
}
