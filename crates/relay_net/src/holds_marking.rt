//! Types that hold the marking of a node.
ghost use Rattle.std.specs.Prelude.{◌≡◌, List};
ghost use Rattle.sccp_base.specs.declared.mark.Mark.{Mark};

use sccp_base::Marking;

/// The state of a node, as far as a journey needs it: only its marking.
pub trait HoldsMarking {
    /// The marks that the node holds.
    ghost held: { Self → List Mark };

    /// The marking that the node holds.
    fn marking(&self) -> &Marking
        ensures { result.now ≡ held self.now };
}

impl HoldsMarking for Marking {
    ghost held = { λ m. m };

    fn marking(&self) -> &Marking {
        self
    }
}
