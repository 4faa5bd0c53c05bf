//! The search from the start of each cover.
ghost use Rattle.std.specs.Prelude.{◌≡◌, ◌<◌, ◌≤◌, ◌⊎◌, [], IfOk};
ghost use Rattle.plan_model.specs.Network.{IsPlan};
ghost use Rattle.plan_verify.specs.Searching.{IsSound, IsOutcome};

use crate::found::Found;
use crate::outcome::{Greatest, Outcome};
use crate::search::explore;
use plan_check::RankTable;
use plan_classes::start;
use plan_model::Plan;
use sccp_base::OutOfMemory;
use std::alloc::Global;

/// Ranks the start of each cover, in their order, or finds a bad route of one of the cover's titles.
pub(crate) fn explore_starts(
    alloc: Global,
    plan: &Plan,
    ranks: &mut RankTable,
) -> Result<Outcome, OutOfMemory>
    requires { ranks.old ≡ [] }
    ensures plan { IsPlan plan.now }
    ensures sound { IsSound plan.now ranks.new }
    ensures outcome { IfOk result (IsOutcome plan.now ranks.new) }
{
    let count = plan.covers().as_slice().len() as u32;
    let mut greatest = Greatest { cover: 0, rank: 0 };
    for number in 0..count {
        match explore(alloc, plan, &start(plan, number), 0, ranks)? {
            Found::Rank(rank) => greatest = greater(greatest, number, rank),
            Found::Bad(trace) => return Ok(Outcome::Refuted(number, trace)),
            Found::Wide => return Ok(Outcome::TooMany),
        }
    }
    Ok(Outcome::Ranked(greatest))
}

/// The one of two covers whose start has the greater rank.
fn greater(greatest: Greatest, number: u32, rank: u8) -> Greatest
    ensures least { greatest.rank ≤ result.rank }
    ensures above { rank ≤ result.rank }
    ensures one { (result ≡ greatest) ⊎ ((result.cover ≡ number) × (result.rank ≡ rank)) }
{
    if greatest.rank < rank {
        Greatest {
            cover: number,
            rank,
        }
    } else {
        greatest
    }
}
