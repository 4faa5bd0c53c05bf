//! What a proof says that the publisher or a reader knows.
use plan_check::Accepted;
use sccp_base::List;

/// What the publisher or a reader knows of the published plans. That is a batch, all plans that may be published by its end,
/// and how many of them it knows to be published. It is used only in proofs; no value of it is made.
pub struct Known {
    pub batch: u64,
    pub plans: List<Accepted>,
    pub number: u32,
}
