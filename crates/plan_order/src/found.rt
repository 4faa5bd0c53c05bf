//! What a search finds.
use crate::safe_step::SafeStep;
use sccp_base::List;

/// What a search from a set of relays finds.
#[derive(Drop)]
pub(crate) enum Found {
    /// Steps after which all relays have the new plan.
    Steps(List<SafeStep>),
    /// No order goes on from here, if no step was too wide.
    Nowhere,
    /// The search met too many dead ends.
    GaveUp,
}
