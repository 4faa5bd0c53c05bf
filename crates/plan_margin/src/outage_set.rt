//! Sets of outages that are followed together.
ghost use Rattle.std.specs.Prelude.{◌≡◌, ◌||◌, IfOk};
ghost use Rattle.sccp_base.specs.declared.mark.Mark.{Mark};
ghost use Rattle.sccp_base.specs.Marks.{holds, same_mark};
ghost use Rattle.plan_margin.specs.Searching.{IsWithUp, IsWithLost};

use crate::loss_kinds::LossKinds;
use sccp_base::{Mark, Marking, OutOfMemory};
use std::alloc::Global;

/// The outages with some losses and without some others. Those with more than `most` losses do not count.
#[derive(Drop)]
pub(crate) struct OutageSet {
    pub kinds: LossKinds,
    /// The losses of each of the outages, as marks.
    pub lost: Marking,
    /// What none of them takes away, as marks.
    pub up: Marking,
    /// The most losses of an outage that counts.
    pub most: u8,
}

/// These marks, and one more.
fn with_mark(alloc: Global, marks: &Marking, mark: Mark) -> Result<Marking, OutOfMemory>
    ensures { IfOk result (λ more. (m : Mark) → holds more m ≡ (same_mark mark m || holds marks.now m)) }
{
    let mut more = marks.try_clone(alloc)?;
    match more.prohibit(mark) {
        Ok(()) => Ok(more),
        Err(fault) => {
            drop(more);
            Err(fault)
        }
    }
}

impl OutageSet {
    /// The outages of the set in which this mark is not held.
    pub(crate) fn with_up(&self, alloc: Global, mark: Mark) -> Result<OutageSet, OutOfMemory>
        ensures { IfOk result (IsWithUp self.now mark) }
    {
        let lost = self.lost.try_clone(alloc)?;
        match with_mark(alloc, &self.up, mark) {
            Ok(up) => Ok(OutageSet {
                kinds: self.kinds,
                lost,
                up,
                most: self.most,
            }),
            Err(fault) => {
                drop(lost);
                Err(fault)
            }
        }
    }

    /// The outages of the set in which it is held.
    pub(crate) fn with_lost(&self, alloc: Global, mark: Mark) -> Result<OutageSet, OutOfMemory>
        ensures { IfOk result (IsWithLost self.now mark) }
    {
        let up = self.up.try_clone(alloc)?;
        match with_mark(alloc, &self.lost, mark) {
            Ok(lost) => {
                let _marks = lost.marks();
                Ok(OutageSet {
                    kinds: self.kinds,
                    lost,
                    up,
                    most: self.most,
                })
            }
            Err(fault) => {
                drop(up);
                Err(fault)
            }
        }
    }
}
