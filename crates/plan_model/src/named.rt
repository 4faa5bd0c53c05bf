//! Nodes by name and point code, whether or not their rows are a table yet.
ghost use Rattle.std.specs.Prelude.{◌≡◌, ℕ, List};

use crate::node::Node;
use sccp_base::{Name, PointCode};

/// What distinguishes nodes, in a plan and in the text of one.
pub trait Named {
    /// The octets of the name.
    ghost own_name: { Self → List ℕ };

    ghost own_point: { Self → ℕ };

    /// The name.
    fn name(&self) -> &Name
        ensures { result.now ≡ own_name self.now };

    /// The point code.
    fn point(&self) -> PointCode
        ensures { result ≡ own_point self.now };
}

impl Named for Node {
    ghost own_name = { λ node. node.name };

    ghost own_point = { λ node. node.pc };

    fn name(&self) -> &Name {
        &self.name
    }

    fn point(&self) -> PointCode {
        self.pc
    }
}
