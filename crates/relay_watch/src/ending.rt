//! What is said at the end of a capture.
ghost use Rattle.std.specs.Prelude.{◌≡◌, ◌++◌, IfOk, OnOk};
ghost use Rattle.std.specs.Option.{option_to_list};
ghost use Rattle.std.specs.Prelude.{filter_map};
ghost use Rattle.relay_watch.specs.Keepings.{kept_in};
ghost use Rattle.relay_watch.specs.Kept.{unanswered, all_counted, summary_of};

use crate::counting::count_unanswered;
use crate::keeping::{Keeping, unanswered};
use crate::summary::Summary;
use crate::tally::Tally;
use crate::unanswered::Unanswered;
use crate::waiting::Waiting;
use sccp_base::{List, OutOfMemory};
use std::alloc::Global;

/// Puts one at the end, if there is one.
fn add_if_any(found: &mut List<Unanswered>, one: Option<Unanswered>) -> Result<(), OutOfMemory>
    ensures { OnOk result (found.new ≡ found.old ++ option_to_list one) }
{
    match one {
        Some(one) => {
            found.push(one)?;
            Ok(())
        }
        None => Ok(()),
    }
}

/// The arrivals that nothing answered, of those that wait.
fn all_unanswered(
    alloc: Global,
    named: &[u64],
    waiting: &[Waiting],
) -> Result<List<Unanswered>, OutOfMemory>
    ensures { IfOk result (λ found. found ≡ filter_map (unanswered named.now) waiting.now) }
{
    let mut found = List::new(alloc);
    for arrival in waiting {
        add_if_any(&mut found, unanswered(named, arrival))?;
    }
    Ok(found)
}

/// Counts arrivals that nothing answered.
fn count_all(relays: &mut [Tally], found: &[Unanswered])
    ensures { relays.new ≡ all_counted relays.old found.now }
{
    for one in found {
        count_unanswered(relays, Some(*one));
    }
}

/// What is left of what is kept.
pub(crate) fn summary(alloc: Global, kept: Keeping) -> Result<Summary, OutOfMemory>
    ensures { IfOk result (λ summary. summary ≡ summary_of (kept_in kept)) }
{
    let Keeping {
        waiting,
        named,
        relays,
        events,
        unexplained,
        ..
    } = kept;
    let found = all_unanswered(alloc, named.as_slice(), waiting.as_slice())?;
    let mut relays = relays;
    count_all(relays.as_mut_slice(), found.as_slice());
    Ok(Summary {
        unanswered: found,
        relays: List::from_vec(relays),
        events,
        unexplained,
    })
}
