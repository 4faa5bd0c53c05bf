//! The turns of the relays on a mixed route.
ghost use Rattle.plan_change.specs.Mixture.{HaveMarkings};

use plan_mixed::Which;
use sccp_base::Marking;

/// What a relay holds when a title reaches it: one of two plans, and what is prohibited.
#[derive(Drop)]
pub struct Turn {
    pub which: Which,
    pub marking: Marking,
}

/// Shows what the type of each turn's marking keeps, for a contract that names a list of turns. It changes nothing.
pub(crate) fn vouch(turns: &[Turn])
    ensures { HaveMarkings turns.now }
{
    for turn in turns {
        let _marks = turn.marking.marks();
    }
}
