//! The marks that close a target.
ghost use Rattle.std.specs.Prelude.{◌≡◌};
ghost use Rattle.plan_model.specs.Targets.{marks};

use crate::node::Node;
use plan_rules::Target;
use sccp_base::Mark;
use std::marker::Model;

/// The marks that close a target (Q.714 section 5). Contracts see them as their list.
///
/// A relay is closed by its point code or by the SCCP there. So is a destination at another point, which its subsystem closes
/// as well. Only its subsystem closes a destination at the node itself.
#[derive(Drop)]
pub struct ClosingMarks {
    /// Three marks at one point: those that close the target, and then the others.
    at_point: [Mark; 3],
    count: usize,
}

impl Model for ClosingMarks {
    ghost use Rattle.std.specs.Prelude.{List, ◌≤◌, take};
    ghost use Rattle.sccp_base.specs.declared.mark.Mark.{Mark};

    ghost Value = { List Mark };

    ghost view = { λ m. take m.count m.at_point };

    ghost invariant = { λ m. m.count ≤ 3 };
}

impl ClosingMarks {
    /// Those of a target of the node. A destination that names no subsystem has the title's, `ssn`.
    pub fn of(node: &Node, ssn: u8, target: &Target) -> ClosingMarks
        ensures { result ≡ marks node.now ssn target.now }
    {
        match target {
            Target::Relay { pc, .. } => ClosingMarks {
                at_point: [
                    Mark::PointCode(*pc),
                    Mark::Sccp(*pc),
                    Mark::Subsystem(*pc, ssn),
                ],
                count: 2,
            },
            Target::Final { pc, ssn: named } => {
                let subsystem = Mark::Subsystem(*pc, named.unwrap_or(ssn));
                if *pc == node.pc {
                    ClosingMarks {
                        at_point: [subsystem, Mark::PointCode(*pc), Mark::Sccp(*pc)],
                        count: 1,
                    }
                } else {
                    ClosingMarks {
                        at_point: [Mark::PointCode(*pc), Mark::Sccp(*pc), subsystem],
                        count: 3,
                    }
                }
            }
        }
    }

    /// These marks, one to three, all at the point of the target.
    pub fn as_slice(&self) -> &[Mark]
        ensures { result.now ≡ self.now }
    {
        &self.at_point[..self.count]
    }
}
