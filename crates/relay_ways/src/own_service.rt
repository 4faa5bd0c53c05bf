//! A service message that its node routes itself.
ghost use Rattle.std.specs.Prelude.{◌<◌, length};

use plan_model::Plan;

/// The octets of a service message that the node at this place of a plan makes for a return cause, and routes by its title
/// (Q.714 section 4.2).
#[derive(Drop)]
pub(crate) struct OwnService<'a> {
    pub plan: &'a Plan,
    pub node: u8,
    pub octets: &'a [u8],
    pub cause: u8,
    ghost inside: { node < length plan.now.nodes },
}
