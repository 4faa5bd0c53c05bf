//! Rows, looked up from where the last look-up ended.
ghost use Rattle.std.specs.Prelude.{◌≡◌, ◌<◌, ◌≤◌, length, All, Some, None, IfSome, IsTrue, ◌↔◌, slice_get};
ghost use Rattle.std.specs.List.{AllPairs, Any};
ghost use Rattle.std.specs.Option.{option_and_then};
ghost use Rattle.plan_rules.specs.Order.{titles, InOrder, IsOrder, IsCount, AreParents};
ghost use Rattle.plan_rules.specs.Rows.{row, ExtendsFor};
ghost use Rattle.plan_rules.specs.Tables.{IsTable};

use crate::beginning::Beginning;
use crate::hints::Hints;
use crate::seeking::{Ordered, extends_from, look, row_at, unnumbered_row_at};
use crate::steps::Steps;
use sccp_base::Selector;
use std::sync::ledger::Ledger;

/// What a table has for some digits.
#[derive(Clone, Copy)]
pub struct LookUp {
    /// The place of the row that counts for a title of these digits.
    pub row: Option<usize>,
    /// Whether some row is for longer titles that begin with them.
    pub extends: bool,
}

/// Where to look next between two places: at the one that is asked for, or at the nearest to it.
fn probe(low: usize, high: usize, next: usize) -> usize
    requires { low < high }
    ensures from { low ≤ result }
    ensures below { result < high }
{
    if next < low {
        low
    } else if high <= next {
        high - 1
    } else {
        next
    }
}

/// Where to look after that: on in steps if one end is still open, and otherwise in the middle.
fn further(low: usize, high: usize, is_open: bool, on: usize) -> usize {
    if is_open || high <= low {
        on
    } else {
        low + (high - low) / 2
    }
}

/// The same as `count_up_to`, looked up from a place that may be near it. The steps grow until the place is between two.
fn count_from<L: Ledger>(
    ordered: &Ordered,
    hint: usize,
    selector: Selector,
    ssn: Option<u8>,
    digits: &[u8],
    steps: &mut Steps<L>,
) -> usize
    requires within { All (λ i. i < length ordered.now.rows.now) ordered.now.order.now }
    requires ascending { AllPairs (InOrder ordered.now.rows.now) ordered.now.order.now }
    ensures { IsCount ordered.now.rows.now ordered.now.order.now (titles selector ssn digits.now) result }
{
    let (rows, order) = (ordered.rows, ordered.order);
    let all = order.len();
    let mut low = 0;
    let mut high = all;
    let mut next = hint;
    let mut step: usize = 1;
    while low < high {
        let middle = probe(low, high, next);
        let stride = step;
        step = step.saturating_mul(2);
        if look(rows, order, middle, steps).is_up_to(selector, ssn, digits) {
            low = middle + 1;
            next = further(low, high, high == all, middle.saturating_add(stride));
        } else {
            high = middle;
            next = further(low, high, low == 0, middle.saturating_sub(stride));
        }
    }
    low
}

/// What the rows have for the digits.
pub fn numbered_look_up<L: Ledger>(
    ordered: &Ordered,
    ssn: u8,
    beginning: &Beginning<'_>,
    hints: &mut Hints,
    steps: &mut Steps<L>,
) -> LookUp
    requires table { IsTable ordered.now.rows.now }
    requires order { IsOrder ordered.now.rows.now ordered.now.order.now }
    requires parents { AreParents ordered.now.rows.now ordered.now.order.now ordered.now.parents.now }
    requires count { length ordered.now.parents.now ≡ length ordered.now.order.now }
    ensures row { option_and_then (slice_get ordered.now.rows.now) result.row
        ≡ row ordered.now.rows.now beginning.now.selector ssn beginning.now.known.now }
    ensures within { IfSome result.row (λ i. i < length ordered.now.rows.now) }
    ensures extends { IsTrue result.extends
        ↔ Any (ExtendsFor beginning.now.selector ssn beginning.now.known.now beginning.now.most) ordered.now.rows.now }
{
    let selector = beginning.selector;
    let digits = beginning.known.as_slice();
    let own = count_from(ordered, hints.own, selector, Some(ssn), digits, steps);
    let plain = count_from(ordered, hints.plain, selector, None, digits, steps);
    *hints = Hints { own, plain };
    let row = row_at(ordered, Hints { own, plain }, selector, ssn, digits, steps);
    let extends = extends_from(ordered, own, Some(ssn), beginning, steps)
        || extends_from(ordered, plain, None, beginning, steps);
    LookUp { row, extends }
}

/// What the rows have for the digits, if no row names a subsystem number.
pub fn unnumbered_look_up<L: Ledger>(
    ordered: &Ordered,
    ssn: u8,
    beginning: &Beginning<'_>,
    hints: &mut Hints,
    steps: &mut Steps<L>,
) -> LookUp
    requires table { IsTable ordered.now.rows.now }
    requires order { IsOrder ordered.now.rows.now ordered.now.order.now }
    requires parents { AreParents ordered.now.rows.now ordered.now.order.now ordered.now.parents.now }
    requires count { length ordered.now.parents.now ≡ length ordered.now.order.now }
    requires unnumbered { All (λ r. r.ssn ≡ None) ordered.now.rows.now }
    ensures row { option_and_then (slice_get ordered.now.rows.now) result.row
        ≡ row ordered.now.rows.now beginning.now.selector ssn beginning.now.known.now }
    ensures within { IfSome result.row (λ i. i < length ordered.now.rows.now) }
    ensures extends { IsTrue result.extends
        ↔ Any (ExtendsFor beginning.now.selector ssn beginning.now.known.now beginning.now.most) ordered.now.rows.now }
{
    let selector = beginning.selector;
    let digits = beginning.known.as_slice();
    let plain = count_from(ordered, hints.plain, selector, None, digits, steps);
    hints.plain = plain;
    let row = unnumbered_row_at(ordered, plain, selector, ssn, digits, steps);
    let extends = extends_from(ordered, plain, None, beginning, steps);
    LookUp { row, extends }
}
