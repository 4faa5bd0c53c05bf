//! Titles with the markings of their routes, and how they are carried back.
ghost use Rattle.std.specs.Prelude.{◌≡◌, ◌<◌, [], ◌∷◌, IfOk, List, length};
ghost use Rattle.sccp_base.specs.declared.mark.Mark.{Mark};
ghost use Rattle.plan_classes.specs.Titles.{IsMember};
ghost use Rattle.plan_classes.specs.Classes.{Decided, Reaches, sample_of};
ghost use Rattle.plan_classes.specs.Leading.{IsInImage, Takes};
ghost use Rattle.plan_verify.specs.Traces.{GoesBefore};

use plan_classes::{Class, carry_back, opening, sample};
use plan_model::Plan;
use sccp_base::{Digits, List, Marking, OutOfMemory};
use std::alloc::Global;

/// The digits of a title, and one marking for each relay on its route.
#[derive(Drop)]
pub struct Trace {
    pub digits: Digits,
    pub markings: List<Marking>,
}

/// A title and the marking of its first relay.
fn one_hop(alloc: Global, digits: Digits, marking: Marking) -> Result<Trace, OutOfMemory>
    ensures digits { IfOk result (λ t. t.digits ≡ digits) }
    ensures markings { IfOk result (λ t. t.markings ≡ marking ∷ []) }
{
    let mut markings = List::new(alloc);
    markings.push(marking)?;
    Ok(Trace { digits, markings })
}

/// The least title of a class, while nothing is prohibited.
pub(crate) fn least_title(alloc: Global, class: &Class) -> Result<Trace, OutOfMemory>
    ensures digits { IfOk result (λ t. t.digits ≡ sample_of class.now) }
    ensures member { IfOk result (λ t. IsMember class.now t.digits) }
    ensures markings { IfOk result (λ t. t.markings ≡ [] ∷ []) }
{
    one_hop(alloc, sample(class), Marking::new(alloc))
}

/// A title of a class under a marking that leaves a target the first open one.
pub(crate) fn through(
    alloc: Global,
    plan: &Plan,
    class: &Class,
    place: u8,
    digits: Digits,
) -> Result<Trace, OutOfMemory>
    requires node { class.now.node < length plan.now.nodes }
    requires decided { Decided plan.now class.now }
    requires reached { Reaches plan.now class.now place }
    ensures digits { IfOk result (λ t. t.digits ≡ digits) }
    ensures takes { IfOk result (λ t. (marking : List Mark) × (t.markings ≡ marking ∷ []) × Takes plan.now class.now place marking) }
{
    let marking = opening(alloc, plan, class, place)?;
    one_hop(alloc, digits, marking)
}

/// The trace of the title that a target sends on as the title of this trace.
pub(crate) fn carry(
    alloc: Global,
    plan: &Plan,
    class: &Class,
    place: u8,
    behind: Trace,
) -> Result<Trace, OutOfMemory>
    requires node { class.now.node < length plan.now.nodes }
    requires decided { Decided plan.now class.now }
    requires reached { Reaches plan.now class.now place }
    requires next { IsInImage plan.now class.now place behind.digits }
    ensures { IfOk result (GoesBefore plan.now class.now place behind) }
{
    let marking = opening(alloc, plan, class, place)?;
    let Trace { digits, markings } = behind;
    Ok(Trace {
        digits: carry_back(plan, class, place, &digits),
        markings: in_front(marking, markings)?,
    })
}

/// One marking, then these markings.
fn in_front(marking: Marking, markings: List<Marking>) -> Result<List<Marking>, OutOfMemory>
    ensures { IfOk result (λ all. all ≡ marking ∷ markings) }
{
    let mut all = markings.into_vec();
    all.insert(0, marking)?;
    Ok(List::from_vec(all))
}
