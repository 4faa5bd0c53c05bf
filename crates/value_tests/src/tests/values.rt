//! The values at the bottom, each call that takes memory once.
use sccp_base::{Digits, DigitsFault, List, Mark, Marking, Octets, PointCode};
use std::alloc::Global;
use std::test::Fail;

/// Whether two octets that are appended and turned round are in the second order, and those of a copy made before in the
/// first.
fn octets_grow(alloc: Global, octets: &mut Octets) -> Result<(bool, bool), Fail> {
    octets.push(0xAB)?;
    octets.push(0x01)?;
    let copy = octets.try_clone(alloc)?;
    octets.as_mut_slice().reverse();
    Ok((
        octets.as_slice() == [0x01, 0xAB].as_slice(),
        copy.into_vec().as_slice() == [0xAB, 0x01].as_slice(),
    ))
}

/// Whether none, which is appended after a point code, is first if both are turned round.
fn list_grows(list: &mut List<Option<PointCode>>) -> Result<bool, Fail> {
    list.push(PointCode::new(2050))?;
    list.push(PointCode::new(16384))?;
    list.as_mut_slice().reverse();
    Ok(list.as_slice()[0].is_none())
}

#[test]
fn octets_and_lists_grow(rt: HostRuntime) -> Result<(), Fail> {
    let mut octets = Octets::new(rt.alloc());
    let grown = octets_grow(rt.alloc(), &mut octets);
    drop(octets);
    assert_eq!(rt; grown?, (true, true));
    let mut list = List::new(rt.alloc());
    assert!(rt; list_grows(&mut list)?);
    assert_eq!(rt; List::from_vec(list.into_vec()).as_slice().len(), 2);
    Ok(())
}

/// The first digit of a pair is in the low half, and an odd number has a filler in the last high half.
#[test]
fn digits_are_packed(rt: HostRuntime) -> Result<(), Fail> {
    let digits = Digits::parse(b"491")?;
    assert_eq!(rt;
        digits.pack(rt.alloc())?.as_slice(),
        [0x94, 0x01].as_slice()
    );
    assert_eq!(rt; Digits::unpack(&[0x94, 0xF1], true), Ok(digits));
    assert_eq!(rt; Digits::unpack(&[0; 17], false), Err(DigitsFault::TooMany));
    assert_eq!(rt; Digits::parse(b"49g"), Err(DigitsFault::NotDigit(2)));
    assert_eq!(rt; Digits::parse(&[b'1'; 33]), Err(DigitsFault::TooMany));
    Ok(())
}

/// Whether marks that are prohibited out of their order are in it. Next, whether the third and the fourth are held after the
/// third is allowed and a mark that is not held. Last, how many a copy has.
fn told(
    alloc: Global,
    marking: &mut Marking,
    order: &[Mark; 5],
    other: Mark,
) -> Result<(bool, bool, bool, usize), Fail> {
    for i in [4, 2, 0, 3, 1, 2] {
        marking.prohibit(order[i])?;
    }
    let in_order = marking.marks() == order.as_slice();
    marking.allow(order[2]);
    marking.allow(other);
    let copy = marking.try_clone(alloc)?;
    Ok((
        in_order,
        marking.holds(order[2]),
        marking.holds(order[3]),
        copy.marks().len(),
    ))
}

#[test]
fn markings_are_ascending_sets(rt: HostRuntime) -> Result<(), Fail> {
    let low = PointCode::new(2049).ok_or("a point code")?;
    let high = PointCode::new(4097).ok_or("a point code")?;
    let order = [
        Mark::PointCode(low),
        Mark::Sccp(low),
        Mark::Subsystem(low, 6),
        Mark::Subsystem(low, 8),
        Mark::PointCode(high),
    ];
    let mut marking = Marking::new(rt.alloc());
    let told = told(rt.alloc(), &mut marking, &order, Mark::Sccp(high));
    drop(marking);
    let (in_order, six, eight, count) = told?;
    assert!(rt; in_order);
    assert!(rt; !six);
    assert!(rt; eight);
    assert_eq!(rt; count, 4);
    Ok(())
}
