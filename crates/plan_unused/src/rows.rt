//! The node of a class.
ghost use Rattle.std.specs.Prelude.{◌≡◌, ◌<◌, length, slice_get, Some};
ghost use Rattle.plan_model.specs.Network.{IsPlan};
ghost use Rattle.plan_classes.specs.Titles.{IsClass};

use plan_classes::Class;
use plan_model::{Node, Plan};

/// The node of the class's titles.
pub(crate) fn class_node<'a>(plan: &'a Plan, class: &Class) -> &'a Node
    requires { class.now.node < length plan.now.nodes }
    ensures value { slice_get plan.now.nodes class.now.node ≡ Some result.now }
    ensures class { IsClass class.now }
    ensures sound { IsPlan plan.now }
{
    &plan.nodes().as_slice()[usize::from(class.node())]
}
