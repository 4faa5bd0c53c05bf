//! A hop while titles are put at it.
ghost use Rattle.std.specs.Prelude.{◌≡◌, []};

use crate::stop::Stop;
use plan_check::RankTable;
use sccp_base::List;
use std::alloc::Global;

/// A hop at which titles are still put. It has the classes that were met there, each with rank 0, and the stops with their
/// titles.
#[derive(Drop)]
pub(crate) struct OpenHop {
    pub met: RankTable,
    pub stops: List<Stop>,
}

impl OpenHop {
    /// A hop without a stop.
    pub(crate) fn new(alloc: Global) -> OpenHop
        ensures met { result.met ≡ [] }
        ensures stops { result.stops ≡ [] }
    {
        OpenHop {
            met: RankTable::new(alloc),
            stops: List::new(alloc),
        }
    }
}
