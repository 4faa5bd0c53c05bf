//! What may be lost, and how much of it.
use plan_margin::LossKinds;

/// Up to this number of losses of these kinds.
#[derive(Clone, Copy)]
pub struct LossLimit {
    pub kinds: LossKinds,
    pub most: u8,
}
