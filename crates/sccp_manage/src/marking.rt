// Changes of a marking, as the ascending list that they leave.
//
// `marks` is called for what it ensures, that the marks are ascending: an ascending list is known by which marks it holds.
ghost use Rattle.std.specs.Prelude.{◌≡◌, ◌==◌, IfOk, OnOk, OnErr, find};
ghost use Rattle.sccp_base.specs.Marks.{point_of, same_mark};
ghost use Rattle.sccp_manage.specs.Markings.{with_mark, with_marks, without_marks};

use sccp_base::{Mark, Marking, OutOfMemory, PointCode};
use std::alloc::Global;

// Prohibits a mark. If memory runs out, the marking is as it was.
fn prohibit(marking: &mut Marking, mark: Mark) -> Result<(), OutOfMemory>
    ensures ok { OnOk result (marking.new ≡ with_mark marking.old mark) }
    ensures err { OnErr result (marking.new ≡ marking.old) }
{
    let _before = marking.marks();
    marking.prohibit(mark)?;
    let _after = marking.marks();
    Ok(())
}

/// Allows a mark.
pub fn allow(marking: &mut Marking, mark: Mark)
    ensures { marking.new ≡ without_marks (same_mark mark) marking.old }
{
    let _before = marking.marks();
    marking.allow(mark);
    let _after = marking.marks();
}

/// The marking with these marks prohibited too. It is a copy, so want of memory at any of them leaves the marking as it was.
pub fn with_marks(alloc: Global, marking: &Marking, marks: &[Mark]) -> Result<Marking, OutOfMemory>
    ensures { IfOk result (λ new. new ≡ with_marks marking.now marks.now) }
{
    let mut more = marking.try_clone(alloc)?;
    for mark in marks {
        prohibit(&mut more, *mark)?;
    }
    Ok(more)
}

// The first mark of a point.
fn first_at(marks: &[Mark], point: PointCode) -> Option<Mark>
    ensures { result ≡ find (λ mark. point_of mark == point) marks.now }
{
    marks.iter().copied().find(|mark| mark.point() == point)
}

/// Allows all marks of a point: the point, its SCCP and its subsystems.
pub fn allow_point(marking: &mut Marking, point: PointCode)
    ensures { marking.new ≡ without_marks (λ mark. point_of mark == point) marking.old }
{
    while let Some(mark) = first_at(marking.marks(), point) {
        allow(marking, mark);
    }
}
