//! What no covered title of a plan can use.
use super::plans::plan_of;
use plan_unused::{Survey, Unused, find_unused};
use sample_plans::{NO_ROWS, ROAMING};
use std::alloc::Global;
use std::test::Fail;

/// Relay a drops 49 and puts a 0, so the row of b for 49 counts for no title. What closes the first target of b's other row closes
/// its second one, too. No title gets to c. The second cover adds nothing to the first, and titles that begin with 47 have no row.
const LEFT_OVER: &str = r#"version = 2
[[node]]
name = "a"
point = "1-0-2"
row = [{ selector = "4:0:1:4", prefix = "49", targets = [{ relay = "b", strip = 2, put = "0", selector = "4:0:1:3" }] }]
[[node]]
name = "b"
point = "1-0-3"
row = [
    { selector = "4:0:1:4", prefix = "49", targets = [{ final = "2-0-1", ssn = 6 }] },
    { selector = "4:0:1:3", prefix = "0", targets = [{ relay = "d" }, { final = "1-0-5", ssn = 6 }] },
]
[[node]]
name = "c"
point = "1-0-4"
row = [{ selector = "4:0:1:3", prefix = "0", targets = [{ final = "2-0-1", ssn = 6 }] }]
[[node]]
name = "d"
point = "1-0-5"
row = [{ selector = "4:0:1:3", prefix = "0", targets = [{ final = "2-0-1", ssn = 6 }, { final = "2-0-2", ssn = 6 }] }]
[[cover]]
node = "a"
selector = "4:0:1:4"
ssn = 6
prefix = "49"
least = 10
most = 14
allowed = ["2-0-1/6", "2-0-2/6"]
[[cover]]
node = "a"
selector = "4:0:1:4"
ssn = 6
prefix = "4917"
least = 12
most = 12
allowed = ["2-0-2/6", "2-0-1/6"]
[[cover]]
node = "a"
selector = "4:0:1:4"
ssn = 6
prefix = "4917"
least = 12
most = 12
allowed = ["2-0-1/6"]
[[cover]]
node = "a"
selector = "4:0:1:4"
ssn = 6
prefix = "47"
least = 12
most = 12
allowed = ["2-0-1/6"]
"#;

/// Whether this number of relays, rows, targets and covers is listed, and this number of gaps.
fn lists(found: &Unused, want: &[usize; 5]) -> bool {
    found.relays.as_slice().len() == want[0]
        && found.rows.as_slice().len() == want[1]
        && found.targets.as_slice().len() == want[2]
        && found.covers.as_slice().len() == want[3]
        && found.gaps.as_slice().len() == want[4]
}

/// The same of a survey.
fn has(survey: Survey, want: &[usize; 5]) -> bool {
    match survey {
        Survey::Unused(found) => {
            let told = lists(&found, want);
            drop(found);
            told
        }
        Survey::TooWide => false,
    }
}

/// The same of a plan's text.
fn text_has(alloc: Global, text: &str, want: &[usize; 5]) -> Result<bool, Fail> {
    let plan = plan_of(alloc, text)?;
    let found = find_unused(alloc, &plan);
    drop(plan);
    Ok(has(found?, want))
}

#[test]
fn unused_parts_are_listed(rt: HostRuntime) -> Result<(), Fail> {
    assert!(rt; text_has(rt.alloc(), LEFT_OVER, &[1, 1, 1, 1, 1])?);
    assert!(rt; text_has(rt.alloc(), ROAMING, &[0, 0, 0, 0, 0])?);
    assert!(rt; text_has(rt.alloc(), NO_ROWS, &[1, 0, 0, 0, 1])?);
    Ok(())
}
