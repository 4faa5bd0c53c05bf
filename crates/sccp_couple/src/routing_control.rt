//! What routing control of a relay decides by.
use plan_model::Plan;
use sccp_base::Marking;

/// Routing control of a relay (Q.714 section 2): a plan, the place of the relay's node in it, and the node's marking.
#[derive(Drop)]
pub(crate) struct RoutingControl<'a> {
    pub plan: &'a Plan,
    pub node: u8,
    pub marking: &'a Marking,
}
