//! The text of the verdict on one cover of a plan by itself.
ghost use Rattle.std.specs.Prelude.{◌≡◌, ◌≤◌, ◌++◌, length, All, OnOk, IfOk};
ghost use Rattle.sccp_report.specs.Covers.{cover_words, refused_alone_line, cover_text};
ghost use Rattle.sccp_report.specs.Hops.{IsHopIn, hops_text};
ghost use Rattle.sccp_report.specs.Verdicts.{HasHopsIn};

use crate::hop::put_hops;
use crate::limits::put_too_wide;
use crate::text::Text;
use crate::verdict::{put_accepted, put_kind, put_steady};
use plan_model::{Kind, Plan};
use plan_verify::{Verdict, Witness};
use sccp_base::{Octets, OutOfMemory};
use std::alloc::Global;

/// Appends which cover a verdict is on.
#[tactic(auto, unfolding(crate::specs::Covers::cover_words))]
pub fn put_cover(text: &mut Text, number: u16) -> Result<(), OutOfMemory>
    ensures { OnOk result (text.new ≡ text.old ++ cover_words number) }
{
    text.put_numbered(b"cover ", u32::from(number))?;
    text.put(b" ")
}

/// Appends why a cover is refused.
#[tactic(auto, unfolding(crate::specs::Covers::refused_alone_line))]
fn put_refusal(text: &mut Text, kind: Kind, steady: bool) -> Result<(), OutOfMemory>
    ensures { OnOk result (text.new ≡ text.old ++ refused_alone_line kind steady) }
{
    text.put(b"refused ")?;
    put_kind(text, kind)?;
    put_steady(text, steady)
}

/// Appends why a cover is refused, and the route that shows it.
fn put_bad_route(text: &mut Text, plan: &Plan, witness: &Witness) -> Result<(), OutOfMemory>
    requires nodes { All (IsHopIn plan.now) witness.now.hops }
    requires enough { length witness.now.hops ≤ length witness.now.markings }
    ensures { OnOk result (text.new ≡ text.old
        ++ refused_alone_line witness.now.kind witness.now.steady ++ hops_text plan.now witness.now.hops witness.now.markings) }
{
    put_refusal(text, witness.kind, witness.steady)?;
    put_hops(
        text,
        plan,
        witness.hops.as_slice(),
        witness.markings.as_slice(),
    )
}

/// The verdict on a plan with the cover of this number alone, and the bad route of one that is refused.
pub fn cover_text(
    alloc: Global,
    number: u16,
    plan: &Plan,
    verdict: &Verdict,
) -> Result<Octets, OutOfMemory>
    requires { HasHopsIn plan.now verdict.now }
    ensures { IfOk result (λ text. text ≡ cover_text number plan.now verdict.now) }
{
    let mut text = Text::new(alloc);
    put_cover(&mut text, number)?;
    match verdict {
        Verdict::Accepted(accepted) => put_accepted(&mut text, accepted.bound())?,
        Verdict::Refused(_, witness) => put_bad_route(&mut text, plan, witness)?,
        Verdict::TooWide(_) => put_too_wide(&mut text, plan.limits())?,
    }
    Ok(text.into_octets())
}
