//! The test of a table of ranks, and the classes in it.
use super::plans::plan_of;
use plan_check::{Accepted, CheckFault, Longest, Ranks, RanksFault, Unchecked, check};
use plan_classes::Class;
use plan_model::Spot;
use sample_plans::{BACKUP_FORBIDDEN, ONE_TARGET, ROW_OF_SOME};
use sccp_base::{Digits, List, Marking, Selector};
use std::alloc::Global;
use std::test::Fail;

/// A spot of subsystem 6.
fn spot(node: u8, digits: &str) -> Result<Spot, Fail> {
    Ok(Spot {
        node,
        selector: Selector::new(4, 0, 1, 4).ok_or("a selector")?,
        ssn: 6,
        digits: Digits::parse(digits.as_bytes())?,
    })
}

/// A class of subsystem 6.
fn class(cover: u32, node: u8, known: &str, least: u8, most: u8) -> Result<Class, Fail> {
    Ok(Class::new(cover, &spot(node, known)?, least, most).ok_or("a class")?)
}

/// Whether these known digits and this number of further ones are a class.
fn is_class(known: &str, least: u8, most: u8) -> Result<bool, Fail> {
    Ok(Class::new(0, &spot(0, known)?, least, most).is_some())
}

/// The titles of the plans' first cover.
fn first() -> Result<Class, Fail> {
    class(0, 0, "49", 10, 10)
}

/// A covered title, and this number of markings with nothing prohibited.
fn longest(alloc: Global, hops: u8) -> Result<Longest, Fail> {
    let mut markings = List::new(alloc);
    for _ in 0..hops {
        markings.push(Marking::new(alloc))?;
    }
    Ok(Longest {
        spot: Spot {
            node: 0,
            selector: Selector::new(4, 0, 1, 4).ok_or("a selector")?,
            ssn: 6,
            digits: Digits::parse(b"490000000000")?,
        },
        markings,
    })
}

/// The rank of the titles of the plan's first cover, if they have one.
fn ranks(alloc: Global, rank: Option<u8>) -> Result<Ranks, Fail> {
    let mut ranks = Ranks::new(alloc);
    if let Some(rank) = rank {
        ranks.put(first()?, rank)?;
    }
    Ok(ranks)
}

/// The bound or the fault that a check answers.
fn bound_of(checked: Result<Accepted, Unchecked>) -> Result<u8, CheckFault> {
    match checked {
        Ok(accepted) => Ok(accepted.bound()),
        Err(unchecked) => Err(unchecked.fault),
    }
}

/// The bound or the fault of a plan by these ranks.
fn told_by(
    alloc: Global,
    text: &str,
    ranks: &Ranks,
    hops: u8,
) -> Result<Result<u8, CheckFault>, Fail> {
    let plan = plan_of(alloc, text)?;
    match longest(alloc, hops) {
        Ok(longest) => Ok(bound_of(check(alloc, plan, ranks, longest))),
        Err(fault) => {
            drop(plan);
            Err(fault)
        }
    }
}

/// The same if the titles of the plan's first cover have this rank or none.
fn answer_of(
    alloc: Global,
    text: &str,
    rank: Option<u8>,
    hops: u8,
) -> Result<Result<u8, CheckFault>, Fail> {
    let ranks = ranks(alloc, rank)?;
    let told = told_by(alloc, text, &ranks, hops);
    drop(ranks);
    told
}

/// The outcome of a check.
#[derive(Clone, Copy)]
enum Told {
    Bound(u8),
    NoStart,
    NotTight,
    NotLower,
    BadEnd,
    NoRank,
}

/// Whether this is the outcome. A class that is named is that of the first cover's titles.
fn is_told(got: &Result<u8, CheckFault>, want: Told) -> Result<bool, Fail> {
    let want = match want {
        Told::Bound(bound) => Ok(bound),
        Told::NoStart => Err(CheckFault::NoStart(0)),
        Told::NotTight => Err(CheckFault::NotTight),
        Told::NotLower => Err(CheckFault::NotLower(first()?)),
        Told::BadEnd => Err(CheckFault::BadEnd(first()?)),
        Told::NoRank => Err(CheckFault::NoRank(first()?)),
    };
    Ok(*got == want)
}

/// A plan, the rank of the titles of its first cover, the hops of the longest route, and the outcome.
const CHECKS: [(&str, Option<u8>, u8, Told); 6] = [
    (ONE_TARGET, Some(1), 1, Told::Bound(1)),
    (ONE_TARGET, None, 1, Told::NoStart),
    (ONE_TARGET, Some(0), 1, Told::NotLower),
    (ONE_TARGET, Some(1), 0, Told::NotTight),
    (BACKUP_FORBIDDEN, Some(1), 1, Told::BadEnd),
    (ROW_OF_SOME, Some(1), 1, Told::NoRank),
];

/// The place of the first check with another outcome.
fn first_other(
    alloc: Global,
    checks: &[(&str, Option<u8>, u8, Told)],
) -> Result<Option<usize>, Fail> {
    for (place, (text, rank, hops, want)) in checks.iter().enumerate() {
        let got = answer_of(alloc, text, *rank, *hops)?;
        if !is_told(&got, *want)? {
            return Ok(Some(place));
        }
    }
    Ok(None)
}

#[test]
fn tables_of_ranks_are_tested(rt: HostRuntime) -> Result<(), Fail> {
    assert_eq!(rt; first_other(rt.alloc(), &CHECKS)?, None);
    Ok(())
}

/// The rank that counts of two for the same titles, and of how many there are ranks then.
fn put_twice(ranks: &mut Ranks) -> Result<(Option<u8>, usize), Fail> {
    ranks.put(first()?, 3)?;
    ranks.put(first()?, 2)?;
    Ok((ranks.get(&first()?), ranks.len()))
}

#[test]
fn the_latest_rank_counts(rt: HostRuntime) -> Result<(), Fail> {
    let mut ranks = Ranks::new(rt.alloc());
    let told = put_twice(&mut ranks);
    drop(ranks);
    let (rank, count) = told?;
    assert_eq!(rt; rank, Some(2));
    assert_eq!(rt; count, 1);
    Ok(())
}

/// Ranks of 262,144 classes: those of 65,536 places of covers at four nodes.
fn full(alloc: Global) -> Result<Ranks, Fail> {
    let mut ranks = Ranks::new(alloc);
    for place in 0..262_144_u32 {
        let at = class(place % 65_536, (place / 65_536) as u8, "49", 0, 0)?;
        ranks.put(at, 1)?;
    }
    Ok(ranks)
}

/// Whether a full table takes no further class, and another rank of one that it has; that rank; and how many there are.
fn put_more(ranks: &mut Ranks) -> Result<(bool, bool, Option<u8>, usize), Fail> {
    let further = ranks.put(class(0, 4, "49", 0, 0)?, 1) == Err(RanksFault::Full);
    let again = ranks.put(class(9, 3, "49", 0, 0)?, 2) == Ok(());
    let rank = ranks.get(&class(9, 3, "49", 0, 0)?);
    Ok((further, again, rank, ranks.len()))
}

#[test]
fn a_table_has_a_limit(rt: HostRuntime) -> Result<(), Fail> {
    let mut ranks = full(rt.alloc())?;
    let told = put_more(&mut ranks);
    drop(ranks);
    let (further, again, rank, count) = told?;
    assert!(rt; further);
    assert!(rt; again);
    assert_eq!(rt; rank, Some(2));
    assert_eq!(rt; count, 262_144);
    Ok(())
}

#[test]
fn classes_have_limits_and_an_order(rt: HostRuntime) -> Result<(), Fail> {
    assert!(rt; is_class("01234567890123456789", 0, 12)?);
    assert!(rt; !is_class("01234567890123456789", 0, 13)?);
    assert!(rt; !is_class("", 3, 2)?);
    assert!(rt; class(0, 0, "4", 0, 9)? < class(0, 0, "4", 1, 2)?);
    assert!(rt; class(0, 0, "4", 1, 2)? < class(0, 0, "40", 0, 1)?);
    assert!(rt; class(0, 1, "4", 0, 9)? < class(1, 0, "4", 0, 9)?);
    Ok(())
}
