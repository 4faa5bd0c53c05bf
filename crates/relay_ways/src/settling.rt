//! Conditions in their shortest form.
ghost use Rattle.std.specs.Prelude.{◌≡◌, ◌++◌, ◌∷◌, [], if◌then◌else◌, List, IfOk, OnOk};
ghost use Rattle.sccp_base.specs.Marks.{holds};
ghost use Rattle.sccp_base.specs.declared.mark.Mark.{Mark};
ghost use Rattle.relay_ways.specs.Conditions.{meets};
ghost use Rattle.relay_ways.specs.Settled.{allowed, with_mark, with_marks, has_list, with_list, with_lists, settled};

use crate::condition::Condition;
use sccp_base::{List, Mark, OutOfMemory};
use std::alloc::Global;

/// Puts a mark at the end, unless it is there.
fn add_mark(found: &mut List<Mark>, mark: Mark) -> Result<(), OutOfMemory>
    ensures { OnOk result (found.new ≡ with_mark found.old mark) }
{
    if found.as_slice().contains(&mark) {
        return Ok(());
    }
    found.push(mark)?;
    Ok(())
}

/// The marks, each once.
fn each_once(alloc: Global, marks: &[Mark]) -> Result<List<Mark>, OutOfMemory>
    ensures { IfOk result (λ found. found ≡ with_marks [] marks.now) }
{
    let mut found = List::new(alloc);
    for mark in marks {
        add_mark(&mut found, *mark)?;
    }
    Ok(found)
}

/// Puts a mark at the end, if it is none of those that must be free.
fn add_allowed(found: &mut List<Mark>, mark: Mark, none_of: &[Mark]) -> Result<(), OutOfMemory>
    ensures { OnOk result (found.new ≡ found.old ++ (if holds none_of.now mark then [] else mark ∷ [])) }
{
    if none_of.contains(&mark) {
        return Ok(());
    }
    found.push(mark)?;
    Ok(())
}

/// The marks of a list that may be held.
fn allowed(alloc: Global, marks: &[Mark], none_of: &[Mark]) -> Result<List<Mark>, OutOfMemory>
    ensures { IfOk result (λ found. found ≡ allowed none_of.now marks.now) }
{
    let mut found = List::new(alloc);
    for mark in marks {
        add_allowed(&mut found, *mark, none_of)?;
    }
    Ok(found)
}

/// Whether one of the lists has these marks in this order.
fn has_list(lists: &[List<Mark>], marks: &[Mark]) -> bool
    ensures { result ≡ has_list lists.now marks.now }
{
    lists.iter().any(|other| other.as_slice() == marks)
}

/// Puts a list at the end, unless it is there.
fn add_list(found: &mut List<List<Mark>>, marks: List<Mark>) -> Result<(), OutOfMemory>
    ensures { OnOk result (found.new ≡ with_list found.old marks) }
{
    if has_list(found.as_slice(), marks.as_slice()) {
        return Ok(());
    }
    found.push(marks)?;
    Ok(())
}

/// The lists without marks that must be free, each once.
fn lists_once(
    alloc: Global,
    lists: &[List<Mark>],
    none_of: &[Mark],
) -> Result<List<List<Mark>>, OutOfMemory>
    ensures { IfOk result (λ found. found ≡ with_lists none_of.now [] lists.now) }
{
    let mut found = List::new(alloc);
    for marks in lists {
        add_list(&mut found, allowed(alloc, marks.as_slice(), none_of)?)?;
    }
    Ok(found)
}

/// The shortest form of a condition.
fn shortest(alloc: Global, condition: &Condition) -> Result<Condition, OutOfMemory>
    ensures { IfOk result (λ c. c ≡ settled condition.now) }
{
    let one_of = lists_once(
        alloc,
        condition.one_of.as_slice(),
        condition.none_of.as_slice(),
    )?;
    let none_of = each_once(alloc, condition.none_of.as_slice())?;
    Ok(Condition { one_of, none_of })
}

/// The same condition in its shortest form: without marks of `one_of` that must be free, and with each list and each mark once.
/// Exactly the same markings meet it.
pub fn settled(alloc: Global, condition: &Condition) -> Result<Condition, OutOfMemory>
    ensures value { IfOk result (λ c. c ≡ settled condition.now) }
    ensures same { IfOk result (λ c. (marking : List Mark) → meets marking c ≡ meets marking condition.now) }
{
    shortest(alloc, condition)
}
