//! The tally of the verdicts on the covers of a plan.
ghost use Rattle.std.specs.Prelude.{◌≡◌, ◌<◌, ◌≤◌, IfOk};
ghost use Rattle.sccp_plans.specs.Tallies.{counted, total, tally_status, all_accepted_line, counts_line, tally_line};

use plan_verify::Verdict;
use sccp_base::{Octets, OutOfMemory};
use sccp_report::Text;
use sccp_work::Status;
use std::alloc::Global;

/// How many covers so far are accepted, refused and too wide, and the greatest bound of the accepted ones, in hops.
#[derive(Clone, Copy)]
pub struct Tally {
    pub accepted: u16,
    pub refused: u16,
    pub wide: u16,
    pub bound: u8,
}

impl Tally {
    /// Of no cover.
    pub const NONE: Tally = Tally {
        accepted: 0,
        refused: 0,
        wide: 0,
        bound: 0,
    };

    /// With one more verdict.
    pub fn counted(self, verdict: &Verdict) -> Tally
        requires { total self < 65535 }
        ensures { result ≡ counted self verdict.now }
    {
        match verdict {
            Verdict::Accepted(accepted) => Tally {
                accepted: self.accepted + 1,
                bound: self.bound.max(accepted.bound()),
                ..self
            },
            Verdict::Refused(_, _) => Tally {
                refused: self.refused + 1,
                ..self
            },
            Verdict::TooWide(_) => Tally {
                wide: self.wide + 1,
                ..self
            },
        }
    }

    /// The answer: a refusal, next that a cover is too wide.
    pub fn status(self) -> Status
        ensures { result ≡ tally_status self }
    {
        if self.refused > 0 {
            return Status::Refused;
        }
        if self.wide > 0 {
            Status::TooWide
        } else {
            Status::Done
        }
    }

    /// The last line: the bound if all covers are accepted, and otherwise the three numbers.
    pub fn line(self, alloc: Global) -> Result<Octets, OutOfMemory>
        requires { total self ≤ 65535 }
        ensures { IfOk result (λ text. text ≡ tally_line self) }
    {
        if self.refused + self.wide > 0 {
            counts_line(alloc, self.accepted, self.refused, self.wide)
        } else {
            all_accepted_line(alloc, self.bound)
        }
    }
}

#[tactic(auto, unfolding(crate::specs::Tallies::all_accepted_line))]
fn all_accepted_line(alloc: Global, bound: u8) -> Result<Octets, OutOfMemory>
    ensures { IfOk result (λ text. text ≡ all_accepted_line bound) }
{
    let mut text = Text::new(alloc);
    text.put_numbered(b"all accepted bound ", u32::from(bound))?;
    text.put(b"\n")?;
    Ok(text.into_octets())
}

#[tactic(auto, unfolding(crate::specs::Tallies::counts_line))]
fn counts_line(alloc: Global, accepted: u16, refused: u16, wide: u16) -> Result<Octets, OutOfMemory>
    ensures { IfOk result (λ text. text ≡ counts_line accepted refused wide) }
{
    let mut text = Text::new(alloc);
    text.put_numbered(b"accepted ", u32::from(accepted))?;
    text.put_numbered(b" refused ", u32::from(refused))?;
    text.put_numbered(b" too wide ", u32::from(wide))?;
    text.put(b"\n")?;
    Ok(text.into_octets())
}
