//! What a relay may hold while it is given another plan.
ghost use Rattle.std.specs.Prelude.{◌≡◌, ◌↔◌, IsTrue};
ghost use Rattle.plan_mixed.specs.Holdings.{may_hold, chosen, MayHold};

use crate::which::Which;

/// Which of two plans a relay may hold.
#[derive(Clone, Copy)]
pub enum Holding {
    /// The old plan alone.
    Old,
    /// The new plan alone.
    New,
    /// The one or the other at any moment.
    Either,
}

impl Holding {
    /// The plan that a relay holds if a turn asks for this one.
    fn chosen(&self, which: Which) -> Which
        ensures { result ≡ chosen self.now which }
    {
        match self {
            Holding::Old => Which::Old,
            Holding::New => Which::New,
            Holding::Either => which,
        }
    }

    /// Whether a relay may hold this plan.
    fn lets(&self, which: Which) -> bool
        ensures { IsTrue result ↔ (chosen self.now which ≡ which) }
    {
        match self {
            Holding::Old => matches!(which, Which::Old),
            Holding::New => matches!(which, Which::New),
            Holding::Either => true,
        }
    }
}

/// The plan that the relay at this place holds if a turn asks for this one. Without a word on the relay it may hold either.
pub fn chosen(may: &[Holding], node: u8, which: Which) -> Which
    ensures { result ≡ chosen (may_hold may.now node) which }
{
    match may.get(usize::from(node)) {
        Some(holding) => holding.chosen(which),
        None => which,
    }
}

/// Whether the relay at this place may hold this plan.
pub fn may_hold(may: &[Holding], node: u8, which: Which) -> bool
    ensures { IsTrue result ↔ MayHold may.now node which }
{
    match may.get(usize::from(node)) {
        Some(holding) => holding.lets(which),
        None => true,
    }
}
