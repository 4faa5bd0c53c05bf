//! Conditions on a marking.
ghost use Rattle.std.specs.Prelude.{◌≡◌, ◌++◌, ◌∷◌, [], true, false, not, OnOk, IfOk, IfSome, is_some, List};
ghost use Rattle.std.specs.Bool.{MatchBool};
ghost use Rattle.std.specs.List.{find, list_any};
ghost use Rattle.sccp_base.specs.declared.mark.Mark.{Mark};
ghost use Rattle.sccp_base.specs.Marks.{holds, IsMarking};
ghost use Rattle.relay_ways.specs.Conditions.{meets, is_possible, always, both, HoldsOneOf};

use sccp_base::{List, Mark, Marking, OutOfMemory};
use std::alloc::Global;

/// What a node must hold prohibited, and what it must not, so that it does something. A marking meets the condition if it
/// holds a mark of each list of `one_of`, and no mark of `none_of`.
#[derive(Drop)]
pub struct Condition {
    pub one_of: List<List<Mark>>,
    pub none_of: List<Mark>,
}

/// The same marks in memory of their own.
pub(crate) fn copied_marks(alloc: Global, marks: &[Mark]) -> Result<List<Mark>, OutOfMemory>
    ensures { IfOk result (λ copy. copy ≡ marks.now) }
{
    Ok(List::from_vec(Vec::from_slice(alloc, marks)?))
}

/// Puts marks at the end of a list.
fn add_marks(list: &mut List<Mark>, more: &[Mark]) -> Result<(), OutOfMemory>
    ensures { OnOk result (list.new ≡ list.old ++ more.now) }
{
    for mark in more {
        list.push(*mark)?;
    }
    Ok(())
}

/// Puts copies of lists at the end of a list.
fn add_lists(
    alloc: Global,
    lists: &mut List<List<Mark>>,
    more: &[List<Mark>],
) -> Result<(), OutOfMemory>
    ensures { OnOk result (lists.new ≡ lists.old ++ more.now) }
{
    for marks in more {
        lists.push(copied_marks(alloc, marks.as_slice())?)?;
    }
    Ok(())
}

/// The same lists in memory of their own.
pub(crate) fn copied_lists(
    alloc: Global,
    lists: &[List<Mark>],
) -> Result<List<List<Mark>>, OutOfMemory>
    ensures { IfOk result (λ copy. copy ≡ lists.now) }
{
    let mut copy = List::new(alloc);
    add_lists(alloc, &mut copy, lists)?;
    Ok(copy)
}

/// The condition that each marking meets. It takes no memory.
fn always(alloc: Global) -> Condition
    ensures { result ≡ always }
{
    Condition {
        one_of: List::new(alloc),
        none_of: List::new(alloc),
    }
}

/// The one condition of what does not depend on the marking.
pub(crate) fn only_always(alloc: Global) -> Result<List<Condition>, OutOfMemory>
    ensures { IfOk result (λ found. found ≡ always ∷ []) }
{
    let mut found = List::new(alloc);
    found.push(always(alloc))?;
    Ok(found)
}

/// The same condition in memory of its own.
pub(crate) fn copied(alloc: Global, condition: &Condition) -> Result<Condition, OutOfMemory>
    ensures { IfOk result (λ copy. copy ≡ condition.now) }
{
    let one_of = copied_lists(alloc, condition.one_of.as_slice())?;
    let none_of = copied_marks(alloc, condition.none_of.as_slice())?;
    Ok(Condition { one_of, none_of })
}

/// Both conditions together.
pub(crate) fn both(
    alloc: Global,
    first: &Condition,
    second: &Condition,
) -> Result<Condition, OutOfMemory>
    ensures { IfOk result (λ c. c ≡ both first.now second.now) }
{
    let mut one_of = copied_lists(alloc, first.one_of.as_slice())?;
    add_lists(alloc, &mut one_of, second.one_of.as_slice())?;
    let mut none_of = copied_marks(alloc, first.none_of.as_slice())?;
    add_marks(&mut none_of, second.none_of.as_slice())?;
    Ok(Condition { one_of, none_of })
}

/// Whether a mark is one of these.
fn has_mark(marks: &[Mark], mark: &Mark) -> bool
    ensures { result ≡ holds marks.now mark.now }
{
    marks.contains(mark)
}

/// The first mark that is none of those which must be free.
fn first_allowed(marks: &[Mark], none_of: &[Mark]) -> Option<Mark>
    ensures { result ≡ find (λ mark. not (holds none_of.now mark)) marks.now }
{
    marks.iter().copied().find(|mark| !has_mark(none_of, mark))
}

/// Prohibits one mark of a list, and none of those which must be free. The answer is whether there is such a mark.
fn prohibit_one(
    marking: &mut Marking,
    marks: &[Mark],
    none_of: &[Mark],
) -> Result<bool, OutOfMemory>
    ensures { IfOk result (λ done. MatchBool done
        ((lists : List (List Mark)) → HoldsOneOf marking.old lists none_of.now
        → HoldsOneOf marking.new (lists ++ marks.now ∷ []) none_of.now)
        (list_any (λ mark. not (holds none_of.now mark)) marks.now ≡ false)) }
{
    match first_allowed(marks, none_of) {
        Some(mark) => {
            marking.prohibit(mark)?;
            Ok(true)
        }
        None => Ok(false),
    }
}

/// A least marking that meets the condition. `None` if no marking meets it.
pub(crate) fn least_marking(
    alloc: Global,
    condition: &Condition,
) -> Result<Option<Marking>, OutOfMemory>
    ensures possible { IfOk result (λ found. is_some found ≡ is_possible condition.now) }
    ensures meets { IfOk result (λ found. IfSome found (λ marking. IsMarking marking × (meets marking condition.now ≡ true))) }
{
    let mut marking = Marking::new(alloc);
    for marks in condition.one_of.as_slice() {
        if !prohibit_one(&mut marking, marks.as_slice(), condition.none_of.as_slice())? {
            return Ok(None);
        }
    }
    let _marks = marking.marks();
    Ok(Some(marking))
}
