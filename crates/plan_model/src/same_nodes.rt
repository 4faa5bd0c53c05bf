//! Whether two plans have the same relays.
ghost use Rattle.std.specs.Prelude.{◌≡◌, map, IsTrue, ◌↔◌};
ghost use Rattle.plan_model.specs.Network.{IsPlan};
ghost use Rattle.plan_model.specs.SameNodes.{without_rows, SameNodes, same_nodes};

use crate::node::Node;
use crate::plan::Plan;
use sccp_base::PointCode;

fn are_equal(old: &[u8], new: &[u8]) -> bool
    ensures { IsTrue result ↔ (old.now ≡ new.now) }
{
    old == new
}

fn are_equal_points(old: &[PointCode], new: &[PointCode]) -> bool
    ensures { IsTrue result ↔ (old.now ≡ new.now) }
{
    old == new
}

/// Whether two relays are the same, whatever they translate.
fn are_alike(old: &Node, new: &Node) -> bool
    ensures { IsTrue result ↔ (without_rows old.now ≡ without_rows new.now) }
{
    if !are_equal(old.name.as_slice(), new.name.as_slice()) {
        return false;
    }
    if old.pc != new.pc {
        return false;
    }
    if !are_equal(old.subsystems.as_slice(), new.subsystems.as_slice()) {
        return false;
    }
    are_equal_points(old.concerned.as_slice(), new.concerned.as_slice())
}

/// Whether the relays are the same, in the same order.
fn are_same(old: &[Node], new: &[Node]) -> bool
    ensures { IsTrue result ↔ (map without_rows old.now ≡ map without_rows new.now) }
{
    if old.len() != new.len() {
        return false;
    }
    for (i, node) in old.iter().enumerate() {
        if !are_alike(node, &new[i]) {
            return false;
        }
    }
    true
}

/// Whether two plans have the same names, point codes, subsystems and concerned points, in order. It takes no memory.
pub fn have_same_nodes(old: &Plan, new: &Plan) -> bool
    ensures same { IsTrue result ↔ SameNodes old.now new.now }
    ensures value { result ≡ same_nodes old.now new.now }
    ensures old { IsPlan old.now }
    ensures new { IsPlan new.now }
{
    are_same(old.nodes().as_slice(), new.nodes().as_slice())
}
