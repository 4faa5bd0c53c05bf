//! Look-ups in a relay's rows with the rows counted that are looked at.
ghost use Rattle.std.specs.Prelude.{◌≡◌, ◌≤◌, ◌<◌, ◌+◌, length};

use super::plans::plan_of;
use plan_model::Plan;
use plan_rules::{Steps, Table};
use sample_plans::NESTED_PREFIXES;
use sccp_base::{Digits, Selector};
use std::alloc::Global;
use std::marker::Brand;
use std::sync::ledger::{Blank, Ledger};
use std::test::Fail;

/// No look-up among 4,096 rows, the most that a plan has, looks at more than 58.
fn found<L: Ledger>(
    table: &Table,
    selector: Selector,
    digits: &Digits,
    steps: &mut Steps<L>,
) -> Option<usize>
    requires { length table.now ≤ 4096 }
    ensures { steps.new ≤ steps.old + 58 }
{
    table.find_counted(selector, 6, digits, steps)
}

/// A look-up with a counter of its own.
fn found_anew<L: Ledger>(
    table: &Table,
    selector: Selector,
    digits: &Digits,
    blank: Blank,
) -> Option<usize>
    requires name { blank.name ≡ L.name }
    requires parts { blank.parts ≡ L.parts }
    requires some { 0 < blank.parts }
    requires rows { length table.now ≤ 4096 }
{
    let mut steps = Steps::<L>::new(blank);
    found(table, selector, digits, &mut steps)
}

/// The place of the row that counts, with the count.
fn counted(table: &Table, selector: Selector, digits: &Digits) -> Option<usize>
    requires { length table.now ≤ 4096 }
{
    found_anew::<Brand>(table, selector, digits, Blank::new(1))
}

/// The row that counts for a title at the plan's first relay, without a count and with one.
fn rows_of(plan: &Plan, digits: &str) -> Result<(Option<usize>, Option<usize>), Fail> {
    let selector = Selector::new(4, 0, 1, 4).ok_or("a selector")?;
    let digits = Digits::parse(digits.as_bytes())?;
    let Some(node) = plan.nodes().as_slice().first() else {
        return Err("a relay")?;
    };
    if node.table.len() > 4096 {
        return Err("rows of a plan")?;
    }
    Ok((
        node.table.find(selector, 6, &digits),
        counted(&node.table, selector, &digits),
    ))
}

/// A title's digits, and the place of the row that counts for it.
const TITLES: [(&str, Option<usize>); 6] = [
    ("11110", Some(0)),
    ("111111", Some(6)),
    ("1113", Some(3)),
    ("119", Some(1)),
    ("19", Some(4)),
    ("9", Some(2)),
];

/// The place of the first of these titles for which another row counts, without a count or with one.
fn first_other(plan: &Plan, titles: &[(&str, Option<usize>)]) -> Result<Option<usize>, Fail> {
    for (place, (digits, want)) in titles.iter().enumerate() {
        if rows_of(plan, digits)? != (*want, *want) {
            return Ok(Some(place));
        }
    }
    Ok(None)
}

/// The same of a plan's text.
fn other_title(
    alloc: Global,
    text: &str,
    titles: &[(&str, Option<usize>)],
) -> Result<Option<usize>, Fail> {
    let plan = plan_of(alloc, text)?;
    let place = first_other(&plan, titles);
    drop(plan);
    place
}

#[test]
fn a_count_changes_no_look_up(rt: HostRuntime) -> Result<(), Fail> {
    assert_eq!(rt; other_title(rt.alloc(), NESTED_PREFIXES, &TITLES)?, None);
    Ok(())
}
