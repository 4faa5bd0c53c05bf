//! The tally of the margins of the covers of a plan.
ghost use Rattle.std.specs.Prelude.{◌≡◌, ◌+◌, ◌<◌, Some, IfOk};
ghost use Rattle.sccp_plans.specs.MarginTallies.{counted, total, margin_status, least_with, all_survive_line, least_line};
ghost use Rattle.sccp_plans.specs.MarginTallies.{margin_line};

use plan_margin::Margin;
use sccp_base::{Octets, OutOfMemory};
use sccp_report::{Text, points_lost};
use sccp_work::Status;
use std::alloc::Global;

/// How many covers so far are stopped, and for how many the search was given up. The least number of points is that of all these
/// covers: fewer points stop no title.
#[derive(Clone, Copy)]
pub struct MarginTally {
    pub least: Option<usize>,
    pub stopped: u16,
    pub wide: u16,
}

impl MarginTally {
    /// Of no cover.
    pub const NONE: MarginTally = MarginTally {
        least: None,
        stopped: 0,
        wide: 0,
    };

    /// With one more margin.
    pub fn counted(self, margin: &Margin) -> MarginTally
        requires { total self < 65535 }
        ensures { result ≡ counted self margin.now }
    {
        match margin {
            Margin::Stopped(stop) => MarginTally {
                least: Some(least_with(self.least, points_lost(stop.markings.as_slice()))),
                stopped: self.stopped + 1,
                ..self
            },
            Margin::TooWide(count) => MarginTally {
                least: Some(least_with(self.least, usize::from(*count))),
                wide: self.wide + 1,
                ..self
            },
            Margin::Survives => self,
            Margin::SurvivesAny => self,
        }
    }

    /// The answer: that a cover is stopped, next that a search was given up.
    pub fn status(self) -> Status
        ensures { result ≡ margin_status self }
    {
        if self.stopped > 0 {
            return Status::Refused;
        }
        if self.wide > 0 {
            Status::TooWide
        } else {
            Status::Done
        }
    }

    /// The last line: the number that all covers survive, and otherwise the least number of points and the two counts.
    pub fn line(self, alloc: Global, losses: u8) -> Result<Octets, OutOfMemory>
        ensures { IfOk result (λ text. text ≡ margin_line losses self) }
    {
        match self.least {
            None => all_survive_line(alloc, losses),
            Some(least) => least_line(alloc, least, self.stopped, self.wide),
        }
    }
}

/// The lesser one of a number and of those so far.
fn least_with(least: Option<usize>, count: usize) -> usize
    ensures { result ≡ least_with least count }
{
    match least {
        Some(least) => least.min(count),
        None => count,
    }
}

#[tactic(auto, unfolding(crate::specs::MarginTallies::all_survive_line))]
fn all_survive_line(alloc: Global, losses: u8) -> Result<Octets, OutOfMemory>
    ensures { IfOk result (λ text. text ≡ all_survive_line losses) }
{
    let mut text = Text::new(alloc);
    text.put_numbered(b"all survive ", u32::from(losses))?;
    text.put(b"\n")?;
    Ok(text.into_octets())
}

#[tactic(auto, unfolding(crate::specs::MarginTallies::least_line))]
fn least_line(alloc: Global, least: usize, stopped: u16, wide: u16) -> Result<Octets, OutOfMemory>
    ensures { IfOk result (λ text. text ≡ least_line least stopped wide) }
{
    let mut text = Text::new(alloc);
    text.put_counted(b"least ", least)?;
    text.put_numbered(b" stopped ", u32::from(stopped))?;
    text.put_numbered(b" too wide ", u32::from(wide))?;
    text.put(b"\n")?;
    Ok(text.into_octets())
}
