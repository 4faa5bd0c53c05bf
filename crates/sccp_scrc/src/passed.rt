//! Whether a message goes on from one relay to another.
use plan_model::Hop;

/// What `pass_on` does with a message.
#[derive(Drop)]
pub enum Passed {
    /// The message goes on to the relay at this place of the plan.
    On { next: u8 },
    /// The message stays. If its title was looked up, the hop has its spot and the step there; `arrive_stepped` takes it up.
    Stays(Option<Hop>),
}
