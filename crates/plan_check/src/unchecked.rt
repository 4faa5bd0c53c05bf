//! Plans that a check did not accept.
use crate::check_fault::CheckFault;
use plan_model::Plan;

/// A plan that was not accepted, and why.
#[derive(Drop)]
pub struct Unchecked {
    pub plan: Plan,
    pub fault: CheckFault,
}
