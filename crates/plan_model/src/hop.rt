//! One step of a title's route: what a node does with the title.
ghost use Rattle.std.specs.Prelude.{◌≡◌};

use crate::spot::Spot;
use sccp_base::{List, Mark, PointCode};

/// What a node does with a title (Q.714 section 2). A `target` is the place of the taken target in its row.
#[derive(Drop)]
pub enum Step {
    /// The title goes on to another relay.
    Sent { next: Spot, target: u8 },
    /// The message has its destination.
    Ended { pc: PointCode, ssn: u8, target: u8 },
    /// Each target is closed, by one prohibited mark each. The cause is that of the last mark: 5 for a point code, 11 for an
    /// SCCP, 3 for a subsystem.
    Blocked { cause: u8, marks: List<Mark> },
    /// The title cannot go on. Cause 0: no row has the selector; 1: no row matches the digits; 4: the node does not have the
    /// subsystem.
    NoRow { cause: u8 },
    /// The new title would have more than 32 digits.
    Overgrown,
}

impl Step {
    ghost use Rattle.plan_model.specs.Next.{next_of};

    /// The spot that the title is sent to.
    pub fn next(&self) -> Option<Spot>
        ensures { result ≡ next_of self.now }
    {
        match self {
            Step::Sent { next, .. } => Some(*next),
            _ => None,
        }
    }
}

/// A title at a node, with what happens to it there.
#[derive(Drop)]
pub struct Hop {
    pub spot: Spot,
    pub step: Step,
}
