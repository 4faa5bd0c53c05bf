//! The links of a running world: what was put on them, and how much of it they have delivered.
ghost use Rattle.std.specs.Prelude.{◌≡◌, ◌<◌, ◌+◌, ℕ, List, [], ◌∷◌, ◌++◌, length, position, slice_get, take, None, OnOk, OnErr};
ghost use Rattle.std.specs.Option.{option_copied};
ghost use Rattle.chain_world.specs.Links.{is_link, octets_on, gone_from, with_at};

use sccp_base::{Octets, OutOfMemory, PointCode};
use std::alloc::Global;

/// The link from one point to another: all messages that were put on it, as octets, oldest first. `gone` is the number that
/// it has delivered.
#[derive(Drop)]
pub(crate) struct Link {
    pub(crate) from: PointCode,
    pub(crate) to: PointCode,
    pub(crate) octets: Vec<Octets>,
    pub(crate) gone: usize,
}

/// The place of the link between two points.
pub(crate) fn place_of(links: &[Link], from: PointCode, to: PointCode) -> Option<usize>
    ensures { result ≡ position (is_link from to) links.now }
{
    links.iter().position(|l| l.from == from && l.to == to)
}

/// Puts a message on a link.
fn put_on(link: &mut Link, octets: Octets) -> Result<(), OutOfMemory>
    ensures from { link.new.from ≡ link.old.from }
    ensures to { link.new.to ≡ link.old.to }
    ensures gone { link.new.gone ≡ link.old.gone }
    ensures ok { OnOk result (link.new.octets.items ≡ link.old.octets.items ++ octets ∷ []) }
    ensures err { OnErr result (link.new.octets.items ≡ link.old.octets.items) }
{
    link.octets.push(octets)?;
    Ok(())
}

/// Adds a link that was not used before, with a first message.
fn begin(
    alloc: Global,
    links: &mut Vec<Link>,
    from: PointCode,
    to: PointCode,
    message: Octets,
) -> Result<(), OutOfMemory>
    requires { position (is_link from to) links.old.items ≡ None }
    ensures ok { OnOk result ((a b : ℕ) → octets_on links.new.items a b
        ≡ with_at from to (octets_on links.old.items from to ++ message ∷ []) (octets_on links.old.items) a b) }
    ensures gone { (a b : ℕ) → gone_from links.new.items a b ≡ gone_from links.old.items a b }
    ensures err { OnErr result (links.new.items ≡ links.old.items) }
{
    let mut octets = Vec::new(alloc);
    octets.push(message)?;
    links.push(Link {
        from,
        to,
        octets,
        gone: 0,
    })?;
    Ok(())
}

/// Puts a message on the link between two points.
pub(crate) fn put(
    alloc: Global,
    links: &mut Vec<Link>,
    from: PointCode,
    to: PointCode,
    octets: Octets,
) -> Result<(), OutOfMemory>
    ensures ok { OnOk result ((a b : ℕ) → octets_on links.new.items a b ≡ with_at from to (octets_on links.old.items from to ++ octets ∷ [])
        (octets_on links.old.items) a b) }
    ensures err { OnErr result ((a b : ℕ) → octets_on links.new.items a b ≡ octets_on links.old.items a b) }
    ensures gone { (a b : ℕ) → gone_from links.new.items a b ≡ gone_from links.old.items a b }
{
    match place_of(links.as_slice(), from, to) {
        Some(place) => put_on(&mut links[place], octets),
        None => begin(alloc, links, from, to, octets),
    }
}

/// Takes the newest message of a link back.
fn drop_last(link: &mut Link)
    ensures from { link.new.from ≡ link.old.from }
    ensures to { link.new.to ≡ link.old.to }
    ensures gone { link.new.gone ≡ link.old.gone }
    ensures octets { (rest : List (List ℕ)) (last : List ℕ) → link.old.octets.items ≡ rest ++ last ∷ [] → link.new.octets.items ≡ rest }
{
    let _ = link.octets.pop();
}

/// Takes the newest message on the link between two points back.
pub(crate) fn take_back(links: &mut Vec<Link>, from: PointCode, to: PointCode)
    ensures octets { (rest : List (List ℕ)) (last : List ℕ) → octets_on links.old.items from to ≡ rest ++ last ∷ [] → (a b : ℕ)
        → octets_on links.new.items a b ≡ with_at from to rest (octets_on links.old.items) a b }
    ensures gone { (a b : ℕ) → gone_from links.new.items a b ≡ gone_from links.old.items a b }
{
    if let Some(place) = place_of(links.as_slice(), from, to) {
        drop_last(&mut links[place]);
    }
}

/// The message at a place.
fn message_at(octets: &[Octets], place: usize) -> Option<&Octets>
    ensures { option_copied result ≡ slice_get octets.now place }
{
    octets.get(place)
}

/// The oldest message that a link has not yet delivered.
pub(crate) fn oldest(links: &[Link], from: PointCode, to: PointCode) -> Option<&Octets>
    ensures { option_copied result ≡ slice_get (octets_on links.now from to) (gone_from links.now from to) }
{
    let place = place_of(links, from, to)?;
    let link = &links[place];
    message_at(link.octets.as_slice(), link.gone)
}

/// Notes that a link has delivered its oldest message.
fn pass_one(link: &mut Link)
    requires { link.old.gone < length link.old.octets.items }
    ensures from { link.new.from ≡ link.old.from }
    ensures to { link.new.to ≡ link.old.to }
    ensures octets { link.new.octets.items ≡ link.old.octets.items }
    ensures gone { link.new.gone ≡ link.old.gone + 1 }
{
    if link.gone < link.octets.len() {
        link.gone += 1;
    }
}

/// Notes that the link between two points has delivered its oldest message.
pub(crate) fn pass(links: &mut Vec<Link>, from: PointCode, to: PointCode)
    requires { gone_from links.old.items from to < length (octets_on links.old.items from to) }
    ensures octets { (a b : ℕ) → octets_on links.new.items a b ≡ octets_on links.old.items a b }
    ensures gone { (a b : ℕ) → gone_from links.new.items a b ≡ with_at from to (gone_from links.old.items from to + 1)
        (gone_from links.old.items) a b }
{
    if let Some(place) = place_of(links.as_slice(), from, to) {
        pass_one(&mut links[place]);
    }
}

/// The messages that a link has delivered.
fn gone_of(link: &Link) -> &[Octets]
    ensures { result.now ≡ take link.now.gone link.now.octets.items }
{
    if link.gone < link.octets.len() {
        &link.octets[..link.gone]
    } else {
        link.octets.as_slice()
    }
}

/// The messages that the link between two points has delivered.
pub(crate) fn delivered(links: &[Link], from: PointCode, to: PointCode) -> &[Octets]
    ensures { result.now ≡ take (gone_from links.now from to) (octets_on links.now from to) }
{
    match place_of(links, from, to) {
        Some(place) => gone_of(&links[place]),
        None => &[],
    }
}
