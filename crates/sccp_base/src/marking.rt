//! What is prohibited, as a set of marks.
ghost use Rattle.std.specs.Prelude.{◌≡◌, [], ◌||◌, ◌&&◌, not, OnOk, OnErr, IfOk};
ghost use Rattle.std.specs.List.{All, list_any};
ghost use Rattle.sccp_base.specs.declared.mark.Mark.{Mark};
ghost use Rattle.sccp_base.specs.Marks.{IsAscending, IsMarking, IsPlaceOf, holds, is_at, same_mark};

use crate::mark::Mark;
use crate::out_of_memory::OutOfMemory;
use crate::point_code::PointCode;
use std::alloc::Global;
use std::marker::Model;

/// The set of prohibited marks, which contracts see as their ascending list (Q.714 section 5).
#[derive(Drop)]
pub struct Marking {
    marks: Vec<Mark>,
}

impl Model for Marking {
    ghost use Rattle.std.specs.Prelude.{List};
    ghost use Rattle.sccp_base.specs.declared.mark.Mark.{Mark};
    ghost use Rattle.sccp_base.specs.Marks.{IsMarking};

    ghost Value = { List Mark };

    ghost view = { λ m. m.marks.items };

    ghost invariant = { λ m. IsMarking m.marks.items };
}

impl Marking {
    /// Nothing is prohibited. It takes no memory.
    pub fn new(alloc: Global) -> Self
        ensures { result ≡ [] }
    {
        Marking {
            marks: Vec::new(alloc),
        }
    }

    /// The prohibited marks in ascending order.
    pub fn marks(&self) -> &[Mark]
        ensures marks { result.now ≡ self.now }
        ensures ascending { IsAscending self.now }
        ensures marking { IsMarking self.now }
    {
        self.marks.as_slice()
    }

    /// Whether the mark is prohibited.
    pub fn holds(&self, mark: Mark) -> bool
        ensures { result ≡ holds self.now mark }
    {
        place_of(&self.marks, &mark).is_ok()
    }

    /// Whether anything at this point is prohibited: the point itself, the SCCP there, or one of its subsystems.
    pub fn has_mark_at(&self, point: PointCode) -> bool
        ensures { result ≡ list_any (is_at point) self.now }
    {
        let held = self.marks();
        match place_of(held, &Mark::PointCode(point)) {
            Ok(_) => true,
            Err(place) => match held.get(place) {
                Some(mark) => mark.point() == point,
                None => false,
            },
        }
    }

    /// Prohibits a mark, and leaves the others as they were. If memory runs out, nothing changes.
    pub fn prohibit(&mut self, mark: Mark) -> Result<(), OutOfMemory>
        ensures ok { OnOk result ((other : Mark) → holds self.new other ≡ (same_mark mark other || holds self.old other)) }
        ensures err { OnErr result (self.new ≡ self.old) }
    {
        mark.vouch();
        if let Err(place) = place_of(&self.marks, &mark) {
            self.marks.insert(place, mark)?;
        }
        Ok(())
    }

    /// Allows a mark, and leaves the others as they were.
    pub fn allow(&mut self, mark: Mark)
        ensures { (other : Mark) → holds self.new other ≡ (not (same_mark mark other) && holds self.old other) }
    {
        if let Ok(place) = place_of(&self.marks, &mark) {
            self.marks.remove(place);
        }
    }

    /// Shows for each marking what its type keeps, for a contract that names a list of them. It changes nothing.
    pub fn vouch(markings: &[Marking])
        ensures { All IsMarking markings.now }
    {
        for marking in markings {
            let _marks = marking.marks();
        }
    }

    /// The same marks in memory of their own.
    pub fn try_clone(&self, alloc: Global) -> Result<Marking, OutOfMemory>
        ensures { IfOk result (λ copy. copy ≡ self.now) }
    {
        Ok(Marking {
            marks: Vec::from_slice(alloc, self.marks.as_slice())?,
        })
    }
}

/// Finds a mark among ascending marks: its place, or as `Err` the place at which it may be inserted.
fn place_of(marks: &[Mark], mark: &Mark) -> Result<usize, usize>
    requires { IsAscending marks.now }
    ensures { IsPlaceOf marks.now mark.now result }
{
    marks.binary_search(mark)
}
