//! Whether one marking for all relays gives the hops of a route.
ghost use Rattle.std.specs.Prelude.{◌≡◌, ◌||◌, ◌<◌, IfOk, OnOk, IsTrue, ◌↔◌, length, replicate};
ghost use Rattle.std.specs.Cmp.Lexicographic.{pointwise};
ghost use Rattle.sccp_base.specs.declared.mark.Mark.{Mark};
ghost use Rattle.sccp_base.specs.Marks.{holds, same_mark};
ghost use Rattle.plan_model.specs.Verdicts.{union, IsSteady};

use plan_model::{Hop, Plan, Spot, Step, route};
use sccp_base::{List, Mark, Marking, OutOfMemory};
use std::alloc::Global;

/// Whether the union of the markings, as one marking for every relay, gives these hops.
pub(crate) fn is_steady(
    alloc: Global,
    plan: &Plan,
    spot: &Spot,
    markings: &[Marking],
    hops: &[Hop],
) -> Result<bool, OutOfMemory>
    requires { spot.now.node < length plan.now.nodes }
    ensures { IfOk result (λ yes. IsTrue yes ↔ IsSteady plan.now spot.now markings.now hops.now) }
{
    let one = union(alloc, markings)?;
    let copies = copies(alloc, &one, markings.len())?;
    let others = route(alloc, plan, *spot, copies.as_slice())?;
    Ok(are_same(others.as_slice(), hops))
}

/// One marking with the marks of all these.
fn union(alloc: Global, markings: &[Marking]) -> Result<Marking, OutOfMemory>
    ensures { IfOk result (λ all. (mark : Mark) → holds all mark ≡ holds (union markings.now) mark) }
{
    let mut all = Marking::new(alloc);
    for marking in markings {
        add(&mut all, marking.marks())?;
    }
    Ok(all)
}

/// Prohibits more marks.
fn add(marking: &mut Marking, marks: &[Mark]) -> Result<(), OutOfMemory>
    ensures { OnOk result ((mark : Mark) → holds marking.new mark ≡ (holds marking.old mark || holds marks.now mark)) }
{
    for mark in marks {
        marking.prohibit(*mark)?;
    }
    Ok(())
}

/// This number of copies of a marking.
fn copies(alloc: Global, marking: &Marking, count: usize) -> Result<List<Marking>, OutOfMemory>
    ensures { IfOk result (λ copies. copies ≡ replicate count marking.now) }
{
    let mut copies = List::new(alloc);
    for _ in 0..count {
        copies.push(marking.try_clone(alloc)?)?;
    }
    Ok(copies)
}

/// Whether the hops are the same.
fn are_same(hops: &[Hop], others: &[Hop]) -> bool
    ensures { IsTrue result ↔ (hops.now ≡ others.now) }
{
    if hops.len() != others.len() {
        return false;
    }
    for (i, hop) in hops.iter().enumerate() {
        if !is_same(hop, &others[i]) {
            return false;
        }
    }
    true
}

fn is_same(hop: &Hop, other: &Hop) -> bool
    ensures { IsTrue result ↔ (hop.now ≡ other.now) }
{
    hop.spot == other.spot && is_same_step(&hop.step, &other.step)
}

fn is_same_step(step: &Step, other: &Step) -> bool
    ensures { IsTrue result ↔ (step.now ≡ other.now) }
{
    match (step, other) {
        (
            Step::Sent { next, target },
            Step::Sent {
                next: to,
                target: place,
            },
        ) => { next == to && target == place }
        (
            Step::Ended { pc, ssn, target },
            Step::Ended {
                pc: point,
                ssn: subsystem,
                target: place,
            },
        ) => pc == point && ssn == subsystem && target == place,
        (
            Step::Blocked { cause, marks },
            Step::Blocked {
                cause: code,
                marks: shut,
            },
        ) => cause == code && are_same_marks(marks.as_slice(), shut.as_slice()),
        (Step::NoRow { cause }, Step::NoRow { cause: code }) => cause == code,
        (Step::Overgrown, Step::Overgrown) => true,
        _ => false,
    }
}

fn are_same_marks(marks: &[Mark], others: &[Mark]) -> bool
    ensures { result ≡ pointwise same_mark marks.now others.now }
{
    marks == others
}
