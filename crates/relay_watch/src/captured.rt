//! The messages of events.
use crate::event::Event;
use plan_model::Plan;
use sccp_address::Address;
use sccp_message::Message;

/// A connectionless message of an event, which is judged against a plan, and its called address.
#[derive(Drop)]
pub(crate) struct Captured<'a> {
    pub plan: &'a Plan,
    pub event: &'a Event,
    pub message: &'a Message,
    pub address: &'a Address,
}
