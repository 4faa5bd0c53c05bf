//! Questions about a running world: freshness, idle links, the number of sections, the next link.
ghost use Rattle.std.specs.Prelude.{◌≡◌, ◌<◌, ◌≤◌, ◌==◌, ◌+◌, ℕ, not, All, Some, None, drop, is_some, length, map, slice_get, sum};
ghost use Rattle.std.specs.List.{list_any, list_all};
ghost use Rattle.couple_chain.specs.Line.{no_repeat};
ghost use Rattle.couple_chain.specs.Relays.{Relaying};
ghost use Rattle.chain_world.specs.Links.{octets_on, gone_from};
ghost use Rattle.chain_world.specs.Running.{holds_on, is_before, lesser, best_of};

use crate::link::{Link, oldest};
use couple_chain::Relay;
use sccp_base::{PointCode, Reference};

/// Whether a reference is among these.
fn is_among(given: &[Reference], own: Reference) -> bool
    ensures { result ≡ list_any (λ m. m == own) given.now }
{
    given.iter().any(|m| *m == own)
}

/// Whether the reference at a place was given again later.
fn is_given_again(given: &[Reference], place: usize) -> bool
    requires { place < length given.now }
    ensures { (own : ℕ) → slice_get given.now place ≡ Some own → result ≡ list_any (λ m. m == own) (drop (place + 1) given.now) }
{
    is_among(&given[place + 1..], given[place])
}

/// Whether each reference was given once.
fn no_repeat(given: &[Reference]) -> bool
    ensures { result ≡ no_repeat given.now }
{
    for place in 0..given.len() {
        if is_given_again(given, place) {
            return false;
        }
    }
    true
}

/// Whether no relay gave one own reference to two sections.
pub(crate) fn are_fresh(relays: &[Relay]) -> bool
    ensures { result ≡ list_all (λ (r : Relaying). no_repeat r.given) relays.now }
{
    relays.iter().all(|r| no_repeat(r.given()))
}

/// Whether the link between two points holds a message.
fn holds(links: &[Link], from: PointCode, to: PointCode) -> bool
    ensures { result ≡ is_some (slice_get (octets_on links.now from to) (gone_from links.now from to)) }
{
    oldest(links, from, to).is_some()
}

/// Whether no link holds a message.
pub(crate) fn are_idle(links: &[Link]) -> bool
    ensures { result ≡ list_all (λ l. not (holds_on links.now l)) links.now }
{
    links.iter().all(|l| !holds(links, l.from, l.to))
}

/// The number of sections of a relay.
fn count_of(relay: &Relay) -> u32
    requires { length relay.now.sections ≤ 4096 }
    ensures { result ≡ length relay.now.sections }
{
    relay.sections().as_slice().len() as u32
}

/// The number of sections of all these relays together.
pub(crate) fn sections_in(relays: &[Relay]) -> u32
    requires few { length relays.now ≤ 255 }
    requires each { All (λ (r : Relaying). length r.sections ≤ 4096) relays.now }
    ensures { result ≡ sum (map (λ (r : Relaying). length r.sections) relays.now) }
{
    let mut total = 0;
    for relay in relays {
        total += count_of(relay);
    }
    total
}

/// Whether these points precede those of a link, or are the same.
fn is_before(from: PointCode, to: PointCode, link: &Link) -> bool
    ensures { result ≡ is_before from to link.now.from link.now.to }
{
    from.value() < link.from.value() || (from == link.from && to.value() <= link.to.value())
}

/// The points of the lesser of two links: the best one so far, if any, and another one.
fn lesser(best: Option<(PointCode, PointCode)>, link: &Link) -> (PointCode, PointCode)
    ensures { result ≡ lesser best link.now.from link.now.to }
{
    match best {
        Some((from, to)) if is_before(from, to, link) => (from, to),
        _ => (link.from, link.to),
    }
}

/// The points of the least link that holds a message, by its first point and then its second.
pub(crate) fn least(links: &[Link]) -> Option<(PointCode, PointCode)>
    ensures { result ≡ best_of links.now None links.now }
{
    let mut best = None;
    for link in links {
        if holds(links, link.from, link.to) {
            best = Some(lesser(best, link));
        }
    }
    best
}
