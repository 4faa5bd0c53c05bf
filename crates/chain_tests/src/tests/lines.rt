//! The lines of connections: what went in at an end, and what the other end was handed.
use super::chain_of_sixteen::CHAIN_OF_SIXTEEN;
use super::plans::plan_of;
use super::{deliver, fault_name, offer, point, point_name, settle};
use chain_world::{Line, Piece, World};
use sample_plans::ROAMING;
use sccp_base::Reference;
use std::alloc::Global;
use std::test::Fail;

/// What is done with a world.
#[derive(Clone, Copy)]
pub(crate) enum Turn {
    /// An end offers octets to a relay, and then links deliver until none holds a message.
    Sends(&'static str, &'static str, &'static str),
    /// An end offers octets to a relay.
    Offers(&'static str, &'static str, &'static str),
    /// A link delivers its oldest message.
    Delivers(&'static str, &'static str),
    /// Asks for the line from an end's point and the reference that it gave.
    Line(&'static str, u32),
    /// Asks whether no link holds a message, and whether no relay gave one own reference twice.
    State,
}

/// Writes pieces, each after a sign: `+` if more follow, `.` if none do.
fn put_pieces(alloc: Global, text: &mut String, name: &str, pieces: &[Piece]) -> Result<(), Fail> {
    text.push_str(name)?;
    for piece in pieces {
        text.push(if piece.more { '+' } else { '.' })?;
        text.push_str(&hex::encode_upper(alloc, piece.payload.as_slice())?)?;
    }
    Ok(())
}

/// Writes a line: its relays by their places, its far end, and what came out of what went in, both ways.
fn put_line(alloc: Global, text: &mut String, line: &Line) -> Result<(), Fail> {
    text.push_str(&hex::encode_upper(alloc, line.path.as_slice())?)?;
    text.push(' ')?;
    text.push_str(point_name(line.far))?;
    put_pieces(alloc, text, " forth ", line.forth_out.as_slice())?;
    put_pieces(alloc, text, " of ", line.forth_in.as_slice())?;
    put_pieces(alloc, text, " back ", line.back_out.as_slice())?;
    put_pieces(alloc, text, " of ", line.back_in.as_slice())?;
    Ok(())
}

/// Writes the line from an end's point and the reference that it gave, or that there is none.
fn put_line_of(
    alloc: Global,
    world: &World,
    text: &mut String,
    from: &str,
    reference: u32,
) -> Result<(), Fail> {
    let reference = Reference::new(reference).ok_or("a reference")?;
    match world.line(point(from)?, reference)? {
        Some(line) => {
            let told = put_line(alloc, text, &line);
            drop(line);
            told
        }
        None => Ok(text.push_str("none")?),
    }
}

/// Writes the fault of an offer, or nothing.
fn put_offer(
    alloc: Global,
    world: &mut World,
    text: &mut String,
    from: &str,
    to: &str,
    octets: &str,
) -> Result<(), Fail> {
    match offer(alloc, world, from, to, octets)? {
        Some(fault) => Ok(text.push_str(fault_name(fault))?),
        None => Ok(()),
    }
}

/// Whether no link holds a message, and whether no relay gave one own reference twice.
fn state_name(world: &World) -> &'static str {
    match (world.settled(), world.fresh()) {
        (true, true) => "settled, each given once",
        (true, false) => "settled, one given again",
        (false, true) => "unsettled, each given once",
        (false, false) => "unsettled, one given again",
    }
}

/// Does one turn, and writes its result.
fn put_turn(alloc: Global, world: &mut World, text: &mut String, turn: &Turn) -> Result<(), Fail> {
    match turn {
        Turn::Sends(from, to, octets) => {
            put_offer(alloc, world, text, from, to, octets)?;
            settle(alloc, world, text)
        }
        Turn::Offers(from, to, octets) => put_offer(alloc, world, text, from, to, octets),
        Turn::Delivers(from, to) => deliver(alloc, world, text, point(from)?, point(to)?),
        Turn::Line(from, reference) => put_line_of(alloc, world, text, from, *reference),
        Turn::State => Ok(text.push_str(state_name(world))?),
    }
}

/// Whether a turn has exactly this result.
pub(crate) fn is_told(
    alloc: Global,
    world: &mut World,
    turn: &Turn,
    told: &str,
) -> Result<bool, Fail> {
    let mut text = String::new(alloc);
    put_turn(alloc, world, &mut text, turn)?;
    Ok(text.as_str() == told)
}

/// The place of the first turn with another result.
fn first_other(
    alloc: Global,
    world: &mut World,
    turns: &[(Turn, &str)],
) -> Result<Option<usize>, Fail> {
    for (place, turn) in turns.iter().enumerate() {
        if !is_told(alloc, world, &turn.0, turn.1)? {
            return Ok(Some(place));
        }
    }
    Ok(None)
}

/// The place of the first turn with another result, in a new world of a plan's relays.
fn other_turn(alloc: Global, plan: &str, turns: &[(Turn, &str)]) -> Result<Option<usize>, Fail> {
    let plan = plan_of(alloc, plan)?;
    let mut world = World::new(alloc, plan)?;
    let place = first_other(alloc, &mut world, turns);
    drop(world);
    place
}

/// A connection that is made, used both ways and released, with a look at its line before and after.
const USED_AND_RELEASED: [(Turn, &str); 12] = [
    // CR, source 1, title 491710000012, hops 15. The far end gets CR, source 2, digits 01710000012, hops 13.
    (
        Turn::Sends(
            "1-0-1",
            "1-0-2",
            "0101000002020D0B120600120494710100002111010F00",
        ),
        "2-0-1 0102000002020D0B520600110310170000100211010D00",
    ),
    (Turn::Line("1-0-1", 1), "none"),
    // CC, destination 2, source 2. The near end gets CC, destination 1, source 1.
    (
        Turn::Sends("2-0-1", "1-0-3", "020200000200000200"),
        "1-0-1 020100000100000200",
    ),
    (Turn::Line("1-0-1", 1), "0001 2-0-1 forth  of  back  of "),
    (Turn::Line("1-0-2", 1), "none"),
    // DT1, destination 1, more, data 41. The far end gets DT1, destination 2, more, data 41.
    (
        Turn::Sends("1-0-1", "1-0-2", "0601000001010141"),
        "2-0-1 0602000001010141",
    ),
    // DT1, destination 1, no more, data 42. The far end gets DT1, destination 2, no more, data 42.
    (
        Turn::Sends("1-0-1", "1-0-2", "0601000000010142"),
        "2-0-1 0602000000010142",
    ),
    // DT1, destination 2, no more, data 43. The near end gets DT1, destination 1, no more, data 43.
    (
        Turn::Sends("2-0-1", "1-0-3", "0602000000010143"),
        "1-0-1 0601000000010143",
    ),
    (
        Turn::Line("1-0-1", 1),
        "0001 2-0-1 forth +41.42 of +41.42 back .43 of .43",
    ),
    // RLSD, destination 1, source 1, cause 0. The near end gets RLC, destination 1, source 1; the far end RLSD, destination
    // 2, source 2.
    (
        Turn::Sends("1-0-1", "1-0-2", "040100000100000000"),
        "1-0-1 05010000010000 2-0-1 040200000200000000",
    ),
    // RLC, destination 2, source 2.
    (Turn::Sends("2-0-1", "1-0-3", "05020000020000"), ""),
    (Turn::Line("1-0-1", 1), "none"),
];

/// There is no line before both sections of each pair have a remote, nor from a relay's point. Then the line has what went
/// over it, both ways, with M. There is none after the release.
#[test]
fn a_line_has_what_went_over_it(rt: HostRuntime) -> Result<(), Fail> {
    assert_eq!(rt; other_turn(rt.alloc(), ROAMING, &USED_AND_RELEASED)?, None);
    Ok(())
}

/// Data that are on their way over a connection.
const ON_THE_WAY: [(Turn, &str); 12] = [
    // CR, source 1, title 491710000012. The far end gets CR, source 2, digits 01710000012.
    (
        Turn::Sends("1-0-1", "1-0-2", "010100000202000B1206001204947101000021"),
        "2-0-1 010200000202000B5206001103101700001002",
    ),
    // CC, destination 2, source 2. The near end gets CC, destination 1, source 1.
    (
        Turn::Sends("2-0-1", "1-0-3", "020200000200000200"),
        "1-0-1 020100000100000200",
    ),
    // DT1, destination 1, more, data 41; then DT1, destination 1, no more, data 42.
    (Turn::Offers("1-0-1", "1-0-2", "0601000001010141"), ""),
    (Turn::Offers("1-0-1", "1-0-2", "0601000000010142"), ""),
    (Turn::Line("1-0-1", 1), "0001 2-0-1 forth  of  back  of "),
    (Turn::Delivers("1-0-1", "1-0-2"), ""),
    (Turn::Delivers("1-0-1", "1-0-2"), ""),
    (Turn::Delivers("1-0-2", "1-0-3"), ""),
    (
        Turn::Line("1-0-1", 1),
        "0001 2-0-1 forth  of +41.42 back  of ",
    ),
    // The far end gets DT1, destination 2, more, data 41.
    (Turn::Delivers("1-0-3", "2-0-1"), "2-0-1 0602000001010141"),
    (Turn::Delivers("1-0-3", "2-0-1"), ""),
    (
        Turn::Line("1-0-1", 1),
        "0001 2-0-1 forth +41 of +41.42 back  of ",
    ),
];

/// What waits on a link has entered the line, and has not left it.
#[test]
fn what_comes_out_is_the_beginning(rt: HostRuntime) -> Result<(), Fail> {
    assert_eq!(rt; other_turn(rt.alloc(), ROAMING, &ON_THE_WAY)?, None);
    Ok(())
}

/// The connections of two ends over the same relays, with data in turn.
const TWO_ENDS: [(Turn, &str); 12] = [
    // CR, source 1, title 491710000012, from 1-0-1. The far end gets CR, source 2, digits 01710000012.
    (
        Turn::Sends("1-0-1", "1-0-2", "010100000202000B1206001204947101000021"),
        "2-0-1 010200000202000B5206001103101700001002",
    ),
    // The same CR from 1-0-4. The far end gets CR, source 4, digits 01710000012.
    (
        Turn::Sends("1-0-4", "1-0-2", "010100000202000B1206001204947101000021"),
        "2-0-1 010400000202000B5206001103101700001002",
    ),
    // CC, destination 4, source 3. The end at 1-0-4 gets CC, destination 1, source 3.
    (
        Turn::Sends("2-0-1", "1-0-3", "020400000300000200"),
        "1-0-4 020100000300000200",
    ),
    // CC, destination 2, source 2. The end at 1-0-1 gets CC, destination 1, source 1.
    (
        Turn::Sends("2-0-1", "1-0-3", "020200000200000200"),
        "1-0-1 020100000100000200",
    ),
    // DT1, destination 1, no more, data 41.
    (Turn::Offers("1-0-1", "1-0-2", "0601000000010141"), ""),
    // DT1, destination 3, no more, data 51. The far end gets it with destination 3.
    (Turn::Offers("1-0-4", "1-0-2", "0603000000010151"), ""),
    (Turn::Delivers("1-0-4", "1-0-2"), ""),
    (Turn::Delivers("1-0-1", "1-0-2"), ""),
    (Turn::Delivers("1-0-2", "1-0-3"), ""),
    (Turn::Delivers("1-0-3", "2-0-1"), "2-0-1 0603000000010151"),
    (Turn::Line("1-0-1", 1), "0001 2-0-1 forth  of .41 back  of "),
    (
        Turn::Line("1-0-4", 1),
        "0001 2-0-1 forth .51 of .51 back  of ",
    ),
];

/// The connections of two ends over the same relays, whose links deliver in turn: each line has its own data.
#[test]
fn each_line_has_its_own(rt: HostRuntime) -> Result<(), Fail> {
    assert_eq!(rt; other_turn(rt.alloc(), ROAMING, &TWO_ENDS)?, None);
    Ok(())
}

/// A connection over fifteen relays, and one over sixteen. Each CR has the title 491710000012.
const FIFTEEN_AND_SIXTEEN: [(Turn, &str); 8] = [
    // CR, source 1, from 1-0-1 to a. The far end gets CR, source 2.
    (
        Turn::Sends("1-0-1", "3-1-0", "010100000202000B1206001204947101000021"),
        "2-0-1 010200000202000B5206001204947101000021",
    ),
    // CC, destination 2, source 2. The near end gets CC, destination 1, source 1.
    (
        Turn::Sends("2-0-1", "3-15-0", "020200000200000200"),
        "1-0-1 020100000100000200",
    ),
    // DT1, destination 1, more, data 41. The far end gets DT1, destination 2, more, data 41.
    (
        Turn::Sends("1-0-1", "3-1-0", "0601000001010141"),
        "2-0-1 0602000001010141",
    ),
    (
        Turn::Line("1-0-1", 1),
        "0102030405060708090A0B0C0D0E0F 2-0-1 forth +41 of +41 back  of ",
    ),
    // CR, source 1, from 1-0-4 to z. The far end gets CR, source 4.
    (
        Turn::Sends("1-0-4", "3-0-0", "010100000202000B1206001204947101000021"),
        "2-0-1 010400000202000B5206001204947101000021",
    ),
    // CC, destination 4, source 3. The near end gets CC, destination 1, source 1.
    (
        Turn::Sends("2-0-1", "3-15-0", "020400000300000200"),
        "1-0-4 020100000100000200",
    ),
    // DT1, destination 1, no more, data 51. The far end gets DT1, destination 3, no more, data 51.
    (
        Turn::Sends("1-0-4", "3-0-0", "0601000000010151"),
        "2-0-1 0603000000010151",
    ),
    (Turn::Line("1-0-4", 1), "none"),
];

/// There is a line over fifteen pairs. Over sixteen pairs the data go on too, but there is no line.
#[test]
fn fifteen_pairs_at_most(rt: HostRuntime) -> Result<(), Fail> {
    assert_eq!(rt;
        other_turn(rt.alloc(), CHAIN_OF_SIXTEEN, &FIFTEEN_AND_SIXTEEN)?,
        None
    );
    Ok(())
}
