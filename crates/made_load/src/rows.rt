//! The rows of a made relay.
ghost use Rattle.std.specs.Prelude.{◌≡◌, ◌<◌, ◌++◌, [], ◌∷◌, map, IfOk};
ghost use Rattle.std.specs.List.{range_with_len};
ghost use Rattle.made_load.specs.Relays.{relay_point, end_point, selector, destination, next_relay, onward, first_target, row_of, rows_of};

use plan_rules::{Row, RuleFault, Table, Target};
use sccp_base::{Digits, List, OutOfMemory, PointCode, Selector};
use std::alloc::Global;

/// The point of a relay, from 0 to 7.
pub(crate) fn relay_point(place: u8) -> PointCode
    requires { place < 8 }
    ensures { result ≡ relay_point place }
{
    match PointCode::new(2048 + 8 * u16::from(place) + 1) {
        Some(point) => point,
        None => unreachable!(),
    }
}

/// The destination of titles that begin with the digit.
pub(crate) fn end_point(digit: u8) -> PointCode
    requires { digit < 10 }
    ensures { result ≡ end_point digit }
{
    match PointCode::new(4096 + 8 * u16::from(digit)) {
        Some(point) => point,
        None => unreachable!(),
    }
}

/// The selector of all titles: of kind 4, with translation type 0, numbering plan 1 and nature of address 4.
pub(crate) fn selector() -> Selector
    ensures { result ≡ selector }
{
    match Selector::new(4, 0, 1, 4) {
        Some(selector) => selector,
        None => unreachable!(),
    }
}

fn destination(digit: u8) -> Target
    requires { digit < 10 }
    ensures { result ≡ destination digit }
{
    Target::Final {
        pc: end_point(digit),
        ssn: Some(6),
    }
}

/// The relay to which another one hands on titles that begin with the digit.
fn next_relay(number: u32, place: u8, digit: u8) -> u8
    requires place { place < 7 }
    requires digit { digit < 10 }
    ensures value { result ≡ next_relay number place digit }
    ensures relay { result < 8 }
{
    let further = (u64::from(number) + u64::from(place) + u64::from(digit)) % 3;
    (place + 1 + further as u8).min(7)
}

fn onward(place: u8) -> Target
    requires { place < 8 }
    ensures { result ≡ onward place }
{
    Target::Relay {
        pc: relay_point(place),
        strip: 0,
        put: no_digits(),
        selector: None,
        ssn: None,
    }
}

/// The first target of a row: all relays but the last hand titles on.
fn first_target(number: u32, place: u8, digit: u8) -> Option<Target>
    requires place { place < 8 }
    requires digit { digit < 10 }
    ensures { result ≡ first_target number place digit }
{
    if place < 7 {
        Some(onward(next_relay(number, place, digit)))
    } else {
        None
    }
}

/// A list of no digits.
pub(crate) fn no_digits() -> Digits
    ensures { result ≡ [] }
{
    match Digits::joined(&[], &[]) {
        Some(digits) => digits,
        None => unreachable!(),
    }
}

/// A list of this one digit.
fn one_digit(digit: u8) -> Digits
    requires { digit < 10 }
    ensures { result ≡ digit ∷ [] }
{
    match Digits::joined(&[digit], &[]) {
        Some(digits) => digits,
        None => unreachable!(),
    }
}

/// The row for titles that begin with the digit. It has the destination itself as its last target.
fn row(alloc: Global, number: u32, place: u8, digit: u8) -> Result<Row, OutOfMemory>
    requires place { place < 8 }
    requires digit { digit < 10 }
    ensures { IfOk result (λ r. r ≡ row_of number place digit) }
{
    let selector = selector();
    let mut targets = List::new(alloc);
    if let Some(first) = first_target(number, place, digit) {
        targets.push(first)?;
    }
    targets.push(destination(digit))?;
    match Row::new(selector, None, one_digit(digit), targets) {
        Some(row) => Ok(row),
        None => unreachable!(),
    }
}

fn rows(alloc: Global, number: u32, place: u8) -> Result<List<Row>, OutOfMemory>
    requires { place < 8 }
    ensures { IfOk result (λ rs. rs ≡ rows_of number place) }
{
    let mut rows = List::new(alloc);
    for digit in 0..10 {
        rows.push(row(alloc, number, place, digit)?)?;
    }
    Ok(rows)
}

/// The table of a relay, with a row for each first digit of a title.
pub(crate) fn table(alloc: Global, number: u32, place: u8) -> Result<Table, OutOfMemory>
    requires { place < 8 }
    ensures { IfOk result (λ table. table ≡ rows_of number place) }
{
    let rows = rows(alloc, number, place)?;
    match Table::build(alloc, rows) {
        Ok(table) => Ok(table),
        Err(RuleFault::OutOfMemory) => Err(OutOfMemory),
        Err(_) => unreachable!(),
    }
}
