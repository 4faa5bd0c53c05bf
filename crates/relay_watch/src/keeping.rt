//! What is kept while messages are judged, and its changes that cannot fail.
ghost use Rattle.std.specs.Prelude.{◌≡◌, ◌<◌, ◌≤◌, ◌==◌, ◌++◌, ◌∷◌, [], length, slice_get, OnOk, IfSome, option_map};
ghost use Rattle.std.specs.List.{position};
ghost use Rattle.std.specs.Option.{option_and_then, option_to_list};
ghost use Rattle.std.specs.Vec.{vec_len, vec_capacity};
ghost use Rattle.relay_watch.specs.Arrivals.{ended, given_if};
ghost use Rattle.relay_watch.specs.Kept.{answered, remembered, is_named, with_named, without, without_at, unanswered, unanswered_if};

use crate::answered::Answered;
use crate::gone::Gone;
use crate::tally::Tally;
use crate::unanswered::Unanswered;
use crate::waiting::Waiting;
use sccp_base::OutOfMemory;

/// The most arrivals that wait.
const MOST_WAITING: usize = 16_384;

/// The most answered arrivals that are remembered.
const MOST_ANSWERED: usize = 1_024;

/// The arrivals that wait, the answered ones, the numbers of waiting arrivals that an unexplained message names, what is kept of each
/// relay, and how many messages were judged and are unexplained.
#[derive(Drop)]
pub(crate) struct Keeping {
    pub waiting: Vec<Waiting>,
    pub answered: Vec<Answered>,
    pub named: Vec<u64>,
    pub relays: Vec<Tally>,
    pub events: u64,
    pub unexplained: u64,
}

/// Makes room for one more.
pub(crate) fn room<T>(list: &mut Vec<T>) -> Result<(), OutOfMemory>
    ensures same { list.new.items ≡ list.old.items }
    ensures room { OnOk result (vec_len list.new < vec_capacity list.new) }
{
    list.reserve(1)?;
    Ok(())
}

/// Puts one more at the end, for which there is room.
fn put<T: Drop>(list: &mut Vec<T>, item: T)
    requires { vec_len list.old < vec_capacity list.old }
    ensures { list.new.items ≡ list.old.items ++ item ∷ [] }
{
    match list.push(item) {
        Ok(()) => {}
        Err(_) => unreachable!(),
    }
}

/// Puts a new arrival after the others.
pub(crate) fn begin(waiting: &mut Vec<Waiting>, new: Option<Waiting>)
    requires { vec_len waiting.old < vec_capacity waiting.old }
    ensures { waiting.new.items ≡ waiting.old.items ++ option_to_list new }
{
    match new {
        Some(new) => put(waiting, new),
        None => {}
    }
}

/// Takes the one out that was found, and otherwise the oldest if too many wait.
pub(crate) fn end(waiting: &mut Vec<Waiting>, place: Option<usize>) -> Gone
    requires { IfSome place (λ p. p < length waiting.old.items) }
    ensures items { waiting.new.items ≡ ended waiting.old.items place }
    ensures given { result.given_up ≡ given_if waiting.old.items place }
    ensures found { result.found ≡ option_and_then (slice_get waiting.old.items) place }
{
    match place {
        Some(place) => Gone {
            found: Some(waiting.remove(place)),
            given_up: None,
        },
        None => if waiting.len() > MOST_WAITING {
            Gone {
                found: None,
                given_up: Some(waiting.remove(0)),
            }
        } else {
            Gone {
                found: None,
                given_up: None,
            }
        },
    }
}

/// Remembers an arrival that explains the message with this number, and forgets the oldest if there are too many.
pub(crate) fn remember(list: &mut Vec<Answered>, found: Option<Waiting>, by: u64)
    requires room { vec_len list.old < vec_capacity list.old }
    requires few { length list.old.items ≤ 1024 }
    ensures { list.new.items ≡ remembered (list.old.items ++ option_to_list (option_map (answered by) found)) }
{
    match found {
        Some(arrival) => {
            put(list, Answered { arrival, by });
            if list.len() > MOST_ANSWERED {
                drop(list.remove(0));
            }
        }
        None => {}
    }
}

/// Whether the arrival with this number is named.
fn is_named(named: &[u64], number: u64) -> bool
    ensures { result ≡ is_named named.now number }
{
    named.contains(&number)
}

/// Names an arrival.
pub(crate) fn name(named: &mut Vec<u64>, number: Option<u64>)
    requires { vec_len named.old < vec_capacity named.old }
    ensures { named.new.items ≡ with_named named.old.items number }
{
    match number {
        Some(number) => if !is_named(named.as_slice(), number) {
            put(named, number);
        },
        None => {}
    }
}

/// The place of a number, if it is there.
fn place_of(named: &[u64], number: u64) -> Option<usize>
    ensures place { result ≡ position (λ n. n == number) named.now }
    ensures within { IfSome result (λ p. p < length named.now) }
{
    named.iter().position(|n| *n == number)
}

/// Takes the number at a place out.
fn remove_at(named: &mut Vec<u64>, place: Option<usize>)
    requires { IfSome place (λ p. p < length named.old.items) }
    ensures { named.new.items ≡ without_at named.old.items place }
{
    match place {
        Some(place) => {
            named.remove(place);
        }
        None => {}
    }
}

/// Names an arrival no more.
pub(crate) fn unname(named: &mut Vec<u64>, number: Option<u64>)
    ensures { named.new.items ≡ without named.old.items number }
{
    match number {
        Some(number) => remove_at(named, place_of(named.as_slice(), number)),
        None => {}
    }
}

/// Whether an arrival that waits no more, and was not answered, is unanswered.
pub(crate) fn unanswered(named: &[u64], arrival: &Waiting) -> Option<Unanswered>
    ensures { result ≡ unanswered named.now arrival.now }
{
    if arrival.due && !is_named(named, arrival.number) {
        Some(Unanswered {
            number: arrival.number,
            node: arrival.node,
        })
    } else {
        None
    }
}

/// The same of the arrival that there may be.
pub(crate) fn unanswered_if(named: &[u64], given: &Option<Waiting>) -> Option<Unanswered>
    ensures { result ≡ unanswered_if named.now given.now }
{
    match given {
        Some(arrival) => unanswered(named, arrival),
        None => None,
    }
}
