//! The counts of relays.
ghost use Rattle.std.specs.Prelude.{◌≡◌, ◌∷◌, ◌++◌, [], length, map, IfOk, OnOk, Some, replicate};
ghost use Rattle.relay_watch.specs.Kept.{no_counts, one_more, one_more_if, first_tally, none_taken, changed, counted, one_other};
ghost use Rattle.relay_watch.specs.Kept.{one_arrived};
ghost use Rattle.relay_watch.specs.Kept.{one_unanswered, one_unexplained, one_explained, is_plain, taken_once, explained, sent, arrived};
ghost use Rattle.relay_watch.specs.Kept.{counted_unanswered, is_unexplained, next_by, next_in, next_of};

use crate::counts::Counts;
use crate::next::Next;
use crate::tally::Tally;
use crate::unanswered::Unanswered;
use crate::verdict::Verdict;
use plan_model::{Node, Plan};
use plan_rules::Row;
use relay_ways::{Explanation, Taken, next_marking};
use sccp_base::{List, OutOfMemory};
use std::alloc::Global;

/// The count after one more.
fn one_more(count: u64) -> u64
    ensures { result ≡ one_more count }
{
    count.saturating_add(1)
}

/// The count after one more, if there is one.
pub(crate) fn one_more_if(more: bool, count: u64) -> u64
    ensures { result ≡ one_more_if more count }
{
    if more { one_more(count) } else { count }
}

/// The counts before the first message.
fn no_counts() -> Counts
    ensures { result ≡ no_counts }
{
    Counts {
        arrived: 0,
        sent: 0,
        plain: 0,
        failing: 0,
        unexplained: 0,
        unanswered: 0,
        others: 0,
        markings: 0,
    }
}

/// Puts one more count at the end, of a target that was not taken.
fn add_none(counts: &mut List<u64>) -> Result<(), OutOfMemory>
    ensures { OnOk result (counts.new ≡ counts.old ++ replicate 1 0) }
{
    counts.push(0)?;
    Ok(())
}

/// A count for each target of a row.
fn none_taken(alloc: Global, row: &Row) -> Result<List<u64>, OutOfMemory>
    ensures { IfOk result (λ counts. counts ≡ none_taken row.now) }
{
    let mut counts = List::new(alloc);
    for _ in row.targets() {
        add_none(&mut counts)?;
    }
    Ok(counts)
}

/// A list for each row.
fn none_taken_of(alloc: Global, rows: &[Row]) -> Result<List<List<u64>>, OutOfMemory>
    ensures { IfOk result (λ taken. taken ≡ map none_taken rows.now) }
{
    let mut taken = List::new(alloc);
    for row in rows {
        taken.push(none_taken(alloc, row)?)?;
    }
    Ok(taken)
}

/// What is kept of a relay before the first message.
fn first_tally(alloc: Global, node: &Node) -> Result<Tally, OutOfMemory>
    ensures { IfOk result (λ tally. tally ≡ first_tally node.now) }
{
    Ok(Tally {
        counts: no_counts(),
        taken: none_taken_of(alloc, node.table.rows())?,
        so_far: None,
    })
}

/// The same of each relay.
pub(crate) fn first_tallies(alloc: Global, plan: &Plan) -> Result<Vec<Tally>, OutOfMemory>
    ensures { IfOk result (λ tallies. tallies.items ≡ map first_tally plan.now.nodes) }
{
    let mut tallies = Vec::new(alloc);
    for node in plan.nodes().as_slice() {
        add_tally(&mut tallies, first_tally(alloc, node)?)?;
    }
    Ok(tallies)
}

fn add_tally(tallies: &mut Vec<Tally>, tally: Tally) -> Result<(), OutOfMemory>
    ensures { OnOk result (tallies.new.items ≡ tallies.old.items ++ tally ∷ []) }
{
    match tallies.push(tally) {
        Ok(()) => Ok(()),
        Err(refused) => {
            drop(refused);
            Err(OutOfMemory)
        }
    }
}

/// The counts with one more message that is not judged.
fn one_other(counts: &Counts) -> Counts
    ensures { result ≡ one_other counts.now }
{
    Counts {
        others: one_more(counts.others),
        ..*counts
    }
}

/// The counts with one more message that arrived.
fn one_arrived(counts: &Counts) -> Counts
    ensures { result ≡ one_arrived counts.now }
{
    Counts {
        arrived: one_more(counts.arrived),
        ..*counts
    }
}

/// The counts with one more arrival that nothing answered.
fn one_unanswered(counts: &Counts) -> Counts
    ensures { result ≡ one_unanswered counts.now }
{
    Counts {
        unanswered: one_more(counts.unanswered),
        ..*counts
    }
}

/// The counts with one more message that no arrival explains.
fn one_unexplained(counts: &Counts) -> Counts
    ensures { result ≡ one_unexplained counts.now }
{
    Counts {
        sent: one_more(counts.sent),
        unexplained: one_more(counts.unexplained),
        ..*counts
    }
}

/// The counts with one more message that an arrival explains.
fn one_explained(plain: bool, begins: bool, counts: &Counts) -> Counts
    ensures { result ≡ one_explained plain begins counts.now }
{
    Counts {
        sent: one_more(counts.sent),
        plain: one_more_if(plain, counts.plain),
        failing: one_more_if(!plain, counts.failing),
        markings: one_more_if(begins, counts.markings),
        ..*counts
    }
}

/// Whether the message is sent with nothing held in one of these ways.
fn is_plain(ways: &[Explanation]) -> bool
    ensures { result ≡ is_plain ways.now }
{
    ways.iter()
        .any(|way| way.condition.one_of.as_slice().is_empty())
}

/// Counts a target of a row once more.
fn raise(counts: &mut List<u64>, target: usize)
    ensures { counts.new ≡ changed one_more (Some target) counts.old }
{
    let counts = counts.as_mut_slice();
    if target < counts.len() {
        counts[target] = one_more(counts[target]);
    }
}

/// Counts a target of the row at this place once more.
fn raise_in(rows: &mut [List<u64>], row: usize, target: usize)
    ensures value { rows.new ≡ changed (changed one_more (Some target)) (Some row) rows.old }
    ensures len { length rows.new ≡ length rows.old }
{
    if row < rows.len() {
        raise(&mut rows[row], target);
    }
}

/// Counts the target that is taken, if one is.
fn take_once(taken: &mut List<List<u64>>, target: Option<Taken>)
    ensures { taken.new ≡ taken_once target taken.old }
{
    match target {
        Some(at) => raise_in(taken.as_mut_slice(), at.row, usize::from(at.target)),
        None => {}
    }
}

/// The marking under which the relay sends an explained message.
fn next_by(alloc: Global, tally: &Tally, ways: &[Explanation]) -> Result<Option<Next>, OutOfMemory>
    ensures { IfOk result (λ next. next ≡ next_by tally.now.so_far ways.now) }
{
    match ways {
        [way, ..] => {
            let (begins, so_far) = next_marking(alloc, &tally.so_far, &way.condition)?;
            Ok(Some(Next { begins, so_far }))
        }
        [] => Ok(None),
    }
}

/// The same of a verdict: none if it explains nothing.
fn next_in(alloc: Global, tally: &Tally, verdict: &Verdict) -> Result<Option<Next>, OutOfMemory>
    ensures { IfOk result (λ next. next ≡ next_in tally.now.so_far verdict.now) }
{
    match verdict {
        Verdict::Explained { ways, .. } => next_by(alloc, tally, ways.as_slice()),
        _ => Ok(None),
    }
}

/// The same of the relay that sent the message.
pub(crate) fn next_of(
    alloc: Global,
    tallies: &[Tally],
    node: Option<u8>,
    verdict: &Verdict,
) -> Result<Option<Next>, OutOfMemory>
    ensures { IfOk result (λ next. next ≡ next_of tallies.now node verdict.now) }
{
    match node {
        Some(node) => match tallies.get(usize::from(node)) {
            Some(tally) => next_in(alloc, tally, verdict),
            None => Ok(None),
        },
        None => Ok(None),
    }
}

/// Counts an explained message, with the marking that was made for it.
fn count_explained(tally: &mut Tally, ways: &[Explanation], next: Option<Next>)
    requires { next ≡ next_by tally.old.so_far ways.now }
    ensures { tally.new ≡ explained ways.now tally.old }
{
    match ways {
        [way, ..] => match next {
            Some(Next { begins, so_far }) => {
                tally.counts = one_explained(is_plain(ways), begins, &tally.counts);
                take_once(&mut tally.taken, way.handling.taken);
                tally.so_far = Some(so_far);
            }
            None => unreachable!(),
        },
        [] => {}
    }
}

/// Counts a message at the relay that sent it.
fn count_verdict(tally: &mut Tally, verdict: &Verdict, next: Option<Next>)
    requires { next ≡ next_in tally.old.so_far verdict.now }
    ensures { tally.new ≡ sent verdict.now tally.old }
{
    match verdict {
        Verdict::Explained { ways, .. } => count_explained(tally, ways.as_slice(), next),
        Verdict::Unexplained(_) => tally.counts = one_unexplained(&tally.counts),
        Verdict::Other => {}
        Verdict::Arrived => {}
        _ => tally.counts = one_other(&tally.counts),
    }
}

/// Counts a message at the relay that sent it, if a relay did.
pub(crate) fn count_sent(
    tallies: &mut [Tally],
    node: Option<u8>,
    verdict: &Verdict,
    next: Option<Next>,
)
    requires { next ≡ next_of tallies.old node verdict.now }
    ensures { tallies.new ≡ changed (sent verdict.now) node tallies.old }
{
    match node {
        Some(node) => {
            let place = usize::from(node);
            if place < tallies.len() {
                count_verdict(&mut tallies[place], verdict, next);
            }
        }
        None => {}
    }
}

/// Counts a message at the relay that it is for.
fn count_arrival(tally: &mut Tally, other: bool)
    ensures { tally.new ≡ arrived other tally.old }
{
    tally.counts = if other {
        one_other(&tally.counts)
    } else {
        one_arrived(&tally.counts)
    };
}

/// Counts a message at the relay that it is for, if it is for one.
pub(crate) fn count_arrived(tallies: &mut [Tally], node: Option<u8>, other: bool)
    ensures { tallies.new ≡ changed (arrived other) node tallies.old }
{
    match node {
        Some(node) => {
            let place = usize::from(node);
            if place < tallies.len() {
                count_arrival(&mut tallies[place], other);
            }
        }
        None => {}
    }
}

fn count_one_unanswered(tally: &mut Tally)
    ensures { tally.new ≡ counted one_unanswered tally.old }
{
    tally.counts = one_unanswered(&tally.counts);
}

/// Counts an arrival that nothing answered.
pub(crate) fn count_unanswered(tallies: &mut [Tally], one: Option<Unanswered>)
    ensures { tallies.new ≡ counted_unanswered tallies.old one }
{
    match one {
        Some(one) => {
            let place = usize::from(one.node);
            if place < tallies.len() {
                count_one_unanswered(&mut tallies[place]);
            }
        }
        None => {}
    }
}

/// Whether a verdict is that the message is unexplained.
pub(crate) fn is_unexplained(verdict: &Verdict) -> bool
    ensures { result ≡ is_unexplained verdict.now }
{
    match verdict {
        Verdict::Unexplained(_) => true,
        _ => false,
    }
}
