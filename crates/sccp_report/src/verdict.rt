//! The text of a verdict on a plan, and of the route that shows it.
ghost use Rattle.std.specs.Prelude.{◌≡◌, ◌≤◌, ◌++◌, length, All, OnOk, IfOk};
ghost use Rattle.plan_verify.specs.Lawful.{plan_of};
ghost use Rattle.plan_model.specs.Routes.{route};
ghost use Rattle.sccp_report.specs.Hops.{IsHopIn};
ghost use Rattle.sccp_report.specs.Verdicts.{kind_words, steady_words, refused_line, accepted_line, refused_lines};
ghost use Rattle.sccp_report.specs.Verdicts.{accepted_lines, verdict_text, HasHopsIn};

use crate::hop::put_hops;
use crate::limits::put_too_wide;
use crate::mark::put_destination;
use crate::text::Text;
use plan_check::Accepted;
use plan_model::{Kind, Plan, route};
use plan_verify::{Verdict, Witness};
use sccp_base::{Octets, OutOfMemory};
use std::alloc::Global;

/// Appends why a route is bad.
#[tactic(auto, unfolding(crate::specs::Verdicts::kind_words))]
pub fn put_kind(text: &mut Text, kind: Kind) -> Result<(), OutOfMemory>
    ensures { OnOk result (text.new ≡ text.old ++ kind_words kind) }
{
    match kind {
        Kind::Loop(from) => text.put_numbered(b"loop ", u32::from(from)),
        Kind::Long => text.put(b"long"),
        Kind::Forbidden(pc, ssn) => {
            text.put(b"forbidden ")?;
            put_destination(text, pc, ssn)
        }
        Kind::NoRow(cause) => text.put_numbered(b"no row ", u32::from(cause)),
        Kind::Overgrown => text.put(b"overgrown"),
    }
}

/// Appends whether the hops are the same if each relay holds all the marks of the route.
#[tactic(auto, unfolding(crate::specs::Verdicts::steady_words))]
pub fn put_steady(text: &mut Text, steady: bool) -> Result<(), OutOfMemory>
    ensures { OnOk result (text.new ≡ text.old ++ steady_words steady) }
{
    text.put(if steady {
        b" steady yes\n"
    } else {
        b" steady no\n"
    })
}

/// Appends the line of a plan that is refused by a route of a title that this cover has.
#[tactic(auto, unfolding(crate::specs::Verdicts::refused_line))]
pub fn put_refused(text: &mut Text, cover: u32, kind: Kind, steady: bool) -> Result<(), OutOfMemory>
    ensures { OnOk result (text.new ≡ text.old ++ refused_line cover kind steady) }
{
    text.put(b"refused ")?;
    put_kind(text, kind)?;
    text.put_numbered(b" cover ", cover)?;
    put_steady(text, steady)
}

/// Appends the line of a plan that is accepted with a bound, in hops.
#[tactic(auto, unfolding(crate::specs::Verdicts::accepted_line))]
pub fn put_accepted(text: &mut Text, bound: u8) -> Result<(), OutOfMemory>
    ensures { OnOk result (text.new ≡ text.old ++ accepted_line bound) }
{
    text.put_numbered(b"accepted bound ", u32::from(bound))?;
    text.put(b"\n")
}

/// Appends that a plan is accepted, and its longest route.
fn put_longest(
    alloc: Global,
    text: &mut Text,
    plan: &Plan,
    accepted: &Accepted,
) -> Result<(), OutOfMemory>
    requires { accepted.now.plan ≡ plan.now }
    ensures { OnOk result (text.new ≡ text.old ++ accepted_lines plan.now accepted.now.bound
        (route plan.now accepted.now.longest.spot accepted.now.longest.markings) accepted.now.longest.markings) }
{
    put_accepted(text, accepted.bound())?;
    let longest = accepted.longest();
    let markings = longest.markings.as_slice();
    let begins = usize::from(longest.spot.node) < plan.nodes().as_slice().len();
    prove!(begins);
    let hops = route(alloc, plan, longest.spot, markings)?;
    put_hops(text, plan, hops.as_slice(), markings)
}

/// Appends that a plan is refused, and the route that shows it.
fn put_witness(text: &mut Text, plan: &Plan, witness: &Witness) -> Result<(), OutOfMemory>
    requires nodes { All (IsHopIn plan.now) witness.now.hops }
    requires enough { length witness.now.hops ≤ length witness.now.markings }
    ensures { OnOk result (text.new ≡ text.old
        ++ refused_lines plan.now witness.now.cover witness.now.kind witness.now.steady witness.now.hops witness.now.markings) }
{
    put_refused(text, witness.cover, witness.kind, witness.steady)?;
    put_hops(
        text,
        plan,
        witness.hops.as_slice(),
        witness.markings.as_slice(),
    )
}

/// The line that a plan is accepted, with its bound.
pub fn accepted_text(alloc: Global, accepted: &Accepted) -> Result<Octets, OutOfMemory>
    ensures { IfOk result (λ text. text ≡ accepted_line accepted.now.bound) }
{
    let mut text = Text::new(alloc);
    put_accepted(&mut text, accepted.bound())?;
    Ok(text.into_octets())
}

/// The verdict on a plan, and the route that shows it: the longest one of a plan that is accepted, the bad one of a plan
/// that is refused.
pub fn verdict_text(alloc: Global, plan: &Plan, verdict: &Verdict) -> Result<Octets, OutOfMemory>
    requires same { plan_of verdict.now ≡ plan.now }
    requires hops { HasHopsIn plan.now verdict.now }
    ensures { IfOk result (λ text. text ≡ verdict_text plan.now verdict.now) }
{
    let mut text = Text::new(alloc);
    match verdict {
        Verdict::Accepted(accepted) => put_longest(alloc, &mut text, plan, accepted)?,
        Verdict::Refused(_, witness) => put_witness(&mut text, plan, witness)?,
        Verdict::TooWide(_) => put_too_wide(&mut text, plan.limits())?,
    }
    Ok(text.into_octets())
}
