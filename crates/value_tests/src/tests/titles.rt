//! Which titles a cover has, and which title a step makes another one.
use super::plans::plan_of;
use plan_classes::{Class, Image, carry_back, class_row, decided, image, start};
use plan_model::{Plan, Spot, covered};
use sample_plans::{NO_ROWS, ROAMING};
use sccp_base::{Digits, Selector};
use std::alloc::Global;
use std::test::Fail;

/// A selector of kind 4, translation type 0, numbering plan 1 and this nature of address.
fn kind_four(nature: u8) -> Result<Selector, Fail> {
    Ok(Selector::new(4, 0, 1, nature).ok_or("a selector")?)
}

/// A title of subsystem 6.
fn spot(node: u8, nature: u8, digits: &str) -> Result<Spot, Fail> {
    Ok(Spot {
        node,
        selector: kind_four(nature)?,
        ssn: 6,
        digits: Digits::parse(digits.as_bytes())?,
    })
}

/// A node, a nature of address and digits, and whether the cover of the plan without rows has that title.
const TITLES: [(u8, u8, &str, bool); 8] = [
    (0, 4, "490", true),
    (0, 4, "4900", true),
    (0, 4, "49", false),
    (0, 4, "49000", false),
    (0, 4, "480", false),
    (0, 4, "49A", false),
    (1, 4, "490", false),
    (0, 3, "490", false),
];

/// The place of the first of these titles for which the answer is another one.
fn first_other(plan: &Plan, titles: &[(u8, u8, &str, bool)]) -> Result<Option<usize>, Fail> {
    for (place, (node, nature, digits, want)) in titles.iter().enumerate() {
        let at = spot(*node, *nature, digits)?;
        if covered(plan, &at) != *want {
            return Ok(Some(place));
        }
    }
    Ok(None)
}

/// The same of a plan's text.
fn other_title(
    alloc: Global,
    text: &str,
    titles: &[(u8, u8, &str, bool)],
) -> Result<Option<usize>, Fail> {
    let plan = plan_of(alloc, text)?;
    let place = first_other(&plan, titles);
    drop(plan);
    place
}

#[test]
fn covers_have_titles(rt: HostRuntime) -> Result<(), Fail> {
    assert_eq!(rt; other_title(rt.alloc(), NO_ROWS, &TITLES)?, None);
    Ok(())
}

/// The title that is made these digits by the class's first target.
fn back_from(plan: &Plan, class: &Class, digits: &Digits) -> Option<Digits> {
    if usize::from(class.node()) < plan.nodes().as_slice().len() {
        if let Some(row) = class_row(plan, class) {
            if decided(plan, class) && 0 < row.target_count() {
                if let Image::Next(next) = image(plan, class, 0) {
                    if next.has(digits) {
                        return Some(carry_back(plan, class, 0, digits));
                    }
                }
            }
        }
    }
    None
}

/// The title of a plan's first cover that is these digits at the next relay.
fn first_back(plan: &Plan, digits: &Digits) -> Option<Digits> {
    if plan.covers().as_slice().is_empty() {
        return None;
    }
    back_from(plan, &start(plan, 0), digits)
}

/// The same of a plan's text.
fn carried_back(alloc: Global, text: &str, digits: &str) -> Result<Option<Digits>, Fail> {
    let digits = Digits::parse(digits.as_bytes())?;
    let plan = plan_of(alloc, text)?;
    let back = first_back(&plan, &digits);
    drop(plan);
    Ok(back)
}

#[test]
fn a_title_is_carried_back(rt: HostRuntime) -> Result<(), Fail> {
    let want = Digits::parse(b"491710000012")?;
    let found = carried_back(rt.alloc(), ROAMING, "01710000012")?;
    assert_eq!(rt; found, Some(want));
    Ok(())
}
