//! The answer on a change from one plan to another.
use crate::mixed_hop::MixedHop;
use crate::turn::Turn;
use plan_model::{Kind, Spot};
use sccp_base::List;

/// Whether two plans may be mixed.
#[derive(Drop)]
pub enum Change {
    /// Each title that both plans cover has an allowed end, or is blocked, within `bound` hops, whichever plan each relay
    /// holds. The mixed route of this spot under these turns has as many hops. Without such a spot the bound is 0.
    Kept {
        bound: u8,
        spot: Option<Spot>,
        turns: List<Turn>,
    },
    /// A title that these covers have takes these hops under these turns, and they are bad. `Forbidden` says that one of the two
    /// covers does not allow the place.
    Broken {
        old_cover: u32,
        new_cover: u32,
        spot: Spot,
        turns: List<Turn>,
        hops: List<MixedHop>,
        kind: Kind,
    },
    /// The two plans reach at least as many classes as the limit of the old plan says: there is no answer on the mixture.
    TooWide,
}
