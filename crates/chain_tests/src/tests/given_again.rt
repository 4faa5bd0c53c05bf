//! A relay gives a reference again, and a line's far end is handed data that nobody sent over that line.
use super::lines::{Turn, is_told};
use super::plans::plan_of;
use chain_world::World;
use std::alloc::Global;
use std::test::Fail;

/// Relay x at 1-0-2 sends titles of 0 to 2-0-1 and titles of 2 to 2-0-3, and passes titles of 1 to y. Relay y at 1-0-3 sends
/// titles of 1 to 2-0-2, and passes titles of 2 to x. The verifier accepts this plan with bound 2.
const BOTH_WAYS: &str = r#"version = 1
[[node]]
name = "x"
point = "1-0-2"
row = [
    { selector = "4:0:1:4", prefix = "0", first = { final = "2-0-1" } },
    { selector = "4:0:1:4", prefix = "1", first = { relay = "y" } },
    { selector = "4:0:1:4", prefix = "2", first = { final = "2-0-3" } },
]
[[node]]
name = "y"
point = "1-0-3"
row = [
    { selector = "4:0:1:4", prefix = "1", first = { final = "2-0-2" } },
    { selector = "4:0:1:4", prefix = "2", first = { relay = "x" } },
]
[[cover]]
node = "x"
selector = "4:0:1:4"
ssn = 6
prefix = "1"
least = 1
most = 1
allowed = ["2-0-2/6"]
[[cover]]
node = "y"
selector = "4:0:1:4"
ssn = 6
prefix = "2"
least = 1
most = 1
allowed = ["2-0-3/6"]
"#;

/// What happens, and after ` = ` in brackets the result. The end at 1-0-1 makes four connections, with its references 1 to 4.
/// The last relay of the third one, x, gives it a reference that the second one had before. Meanwhile data of the second one
/// are on their way to x.
///
/// The first octet of a message is its type: 01 CR, 02 CC, 04 RLSD, 05 RLC, 06 DT1. Three octets follow with the first
/// reference, least significant first: of a CR the source, of the others the destination. CC, RLSD and RLC have the source
/// after it.
const HISTORY: &str = "\
# the first connection, to the title 0, is confirmed and released, and 2-0-1 doesn't answer the release: x keeps 2 of 1, 2
sends 1-0-1 1-0-2 0101000002020006120600110400 = [2-0-1 0102000002020006520600110400]
sends 2-0-1 1-0-2 020200000100000200 = [1-0-1 020100000100000200]
sends 1-0-1 1-0-2 040100000100000000 = [1-0-1 05010000010000 2-0-1 040100000200000000]
# the second one is requested, to the title 1: x gives 1, 3, and y gives 1, 2
sends 1-0-1 1-0-2 0102000002020006120600110401 = [2-0-2 0102000002020006520600110401]
# 2-0-1 answers the release of the first one: x has 1 and 3
sends 2-0-1 1-0-2 05020000010000 = []
# the third one is requested, of y, to the title 2: y gives 3, 4, and its request waits on the link to x
offers 1-0-1 1-0-3 0103000002020006120600110402 = []
delivers 1-0-1 1-0-3 = []
# 2-0-2 confirms the second one and sends one octet, which wait behind that request, both for reference 3 of x
offers 2-0-2 1-0-3 020200000100000200 = []
offers 2-0-2 1-0-3 0602000000010141 = []
delivers 2-0-2 1-0-3 = []
delivers 2-0-2 1-0-3 = []
# the second one is released before it is confirmed at x, which ends both sections, 1 and 3, and tells y nothing
offers 1-0-1 1-0-2 040100000200000000 = []
delivers 1-0-1 1-0-2 = []
# the fourth one is requested, to the title 0: x gives 1, 2
offers 1-0-1 1-0-2 0104000002020006120600110400 = []
delivers 1-0-1 1-0-2 = []
state = [unsettled, one given again]
# the request of the third one comes to x, which gives 3, 4
delivers 1-0-3 1-0-2 = []
delivers 1-0-2 2-0-3 = [2-0-3 0104000002020006520600110402]
# the late confirmation for reference 3 of x is an error, which y drops
delivers 1-0-3 1-0-2 = []
delivers 1-0-2 1-0-3 = []
# 2-0-3 confirms the third one, and its line stands
offers 2-0-3 1-0-2 020400000100000200 = []
delivers 2-0-3 1-0-2 = []
delivers 1-0-2 1-0-3 = []
delivers 1-0-3 1-0-1 = [1-0-1 020300000300000200]
line 1-0-1 3 = [0100 2-0-3 forth  of  back  of ]
# the late data for reference 3 of x go on to 2-0-3
delivers 1-0-3 1-0-2 = []
delivers 1-0-2 2-0-3 = [2-0-3 0601000000010141]
line 1-0-1 3 = [0100 2-0-3 forth .41 of  back  of ]
# what is left on links comes to ends, and changes nothing of that
delivers 1-0-2 1-0-1 = [1-0-1 05020000010000]
delivers 1-0-2 2-0-1 = [2-0-1 0102000002020006520600110400]
state = [settled, one given again]
";

/// The turn that these words give.
fn turn_of(words: &'static str) -> Option<Turn> {
    let mut words = words.split(' ');
    let kind = words.next()?;
    let from = words.next().unwrap_or("");
    let to = words.next().unwrap_or("");
    let octets = words.next().unwrap_or("");
    if kind == "sends" {
        return Some(Turn::Sends(from, to, octets));
    }
    if kind == "offers" {
        return Some(Turn::Offers(from, to, octets));
    }
    if kind == "delivers" {
        return Some(Turn::Delivers(from, to));
    }
    if kind == "state" {
        return Some(Turn::State);
    }
    match to.parse::<u32>() {
        Ok(reference) => Some(Turn::Line(from, reference)),
        Err(_) => None,
    }
}

/// Whether a line of the history has the result that it says. A line that begins with `#` only explains what follows.
fn is_so(alloc: Global, world: &mut World, line: &'static str) -> Result<bool, Fail> {
    if line.starts_with('#') {
        return Ok(true);
    }
    let (words, told) = line.split_once(" = [").ok_or("a turn")?;
    let turn = turn_of(words).ok_or("a turn")?;
    is_told(
        alloc,
        world,
        &turn,
        told.strip_suffix(']').ok_or("its end")?,
    )
}

/// The first line of a history with another result.
fn first_other(
    alloc: Global,
    world: &mut World,
    history: &'static str,
) -> Result<Option<&'static str>, Fail> {
    for line in history.lines() {
        if !is_so(alloc, world, line)? {
            return Ok(Some(line));
        }
    }
    Ok(None)
}

/// The first line with another result, in a new world of a plan's relays.
fn other_line(
    alloc: Global,
    plan: &str,
    history: &'static str,
) -> Result<Option<&'static str>, Fail> {
    let plan = plan_of(alloc, plan)?;
    let mut world = World::new(alloc, plan)?;
    let line = first_other(alloc, &mut world, history);
    drop(world);
    line
}

/// The order of lines is proved for worlds in which no relay gave one own reference twice. Here one did. What came out of the
/// third connection is one octet, but nothing went in.
#[test]
fn a_line_has_the_data_of_another_one(rt: HostRuntime) -> Result<(), Fail> {
    assert!(rt; other_line(rt.alloc(), BOTH_WAYS, HISTORY)?.is_none());
    Ok(())
}
