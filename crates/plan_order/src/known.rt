//! What a search has met.
ghost use Rattle.std.specs.Prelude.{◌≡◌, [], false};

use crate::held::Held;
use sccp_base::List;
use std::alloc::Global;

/// What a search has met.
#[derive(Drop)]
pub(crate) struct Known {
    /// Sets of relays with the new plan, from each of which no order goes on.
    pub dead: List<List<u8>>,
    /// The relays of bad routes, each with the plan that it held. A step that lets them hold the same is refused.
    pub refusals: List<List<Held>>,
    /// Whether some step reached too many classes. It counts as refused.
    pub wide: bool,
}

impl Known {
    /// Nothing is known.
    pub(crate) fn new(alloc: Global) -> Known
        ensures dead { result.dead ≡ [] }
        ensures refusals { result.refusals ≡ [] }
        ensures wide { result.wide ≡ false }
    {
        Known {
            dead: List::new(alloc),
            refusals: List::new(alloc),
            wide: false,
        }
    }
}
