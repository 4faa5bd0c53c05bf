//! The publisher of plans.
ghost use Rattle.std.specs.Arc.{arc_value};
ghost use Rattle.live_plan.specs.Seats.{IsTelling, known_by};

use crate::known::Known;
use crate::published::Published;
use crate::rule::ByBatch;
use left_right::writer::Writer;
use std::alloc::Global;

pub(crate) mod steps;

pub(crate) use steps::open;

pub(crate) type PlanWriter = Writer<Published, Published, Known, ByBatch>;

/// The publisher, whose plans have the numbers from 1 on. It cannot be dropped: `end` ends it.
pub struct Teller {
    writer: PlanWriter,
    alloc: Global,
    nodes: u8,
    /// The number of threads that may run at once, or 0 until the system is asked.
    processors: usize,
    ghost telling: { IsTelling nodes (arc_value writer.desk.shown.value.shown) (known_by writer.desk.place) },
}
