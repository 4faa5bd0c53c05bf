//! The two plans of a changeover.
use plan_model::Plan;

/// The plan that the relays have, and the one that they are given.
#[derive(Clone, Copy)]
pub(crate) struct Plans<'a> {
    pub old: &'a Plan,
    pub new: &'a Plan,
}
