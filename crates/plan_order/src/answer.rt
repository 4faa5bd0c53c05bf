//! The answer on an order of steps.
use crate::safe_step::SafeStep;
use crate::stuck::Stuck;
use sccp_base::List;

/// Whether the relays can be given the new plan by safe steps.
#[derive(Drop)]
pub enum Order {
    /// These steps, one after the other. There is none if no relay's rows differ.
    Steps(List<SafeStep>),
    /// There is no order. These steps are safe, and after them none of the relays that are left can be next.
    NoOrder(List<SafeStep>, List<Stuck>),
    /// The search met 256 sets of relays that have the new plan, from each of which no order goes on. Or the two plans reach at
    /// least as many classes as the limit of the old plan says.
    Undecided,
}
