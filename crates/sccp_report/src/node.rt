//! The names of a plan's nodes.
ghost use Rattle.std.specs.Prelude.{◌≡◌, ◌++◌, OnOk};
ghost use Rattle.std.specs.List.{flat_map};
ghost use Rattle.sccp_report.specs.Hops.{node_text};
ghost use Rattle.sccp_report.specs.Served.{next_node_text, path_text};

use crate::text::Text;
use plan_model::Plan;
use sccp_base::OutOfMemory;

/// Appends the name of the node at a place of the plan, from 0. A place without a node has no name.
#[tactic(auto, unfolding(crate::specs::Hops::node_text))]
pub fn put_node(text: &mut Text, plan: &Plan, node: u8) -> Result<(), OutOfMemory>
    ensures { OnOk result (text.new ≡ text.old ++ node_text plan.now node) }
{
    match plan.nodes().as_slice().get(usize::from(node)) {
        Some(relay) => text.put(relay.name.as_slice()),
        None => Ok(()),
    }
}

// The name of a node after a comma.
#[tactic(auto, unfolding(crate::specs::Served::next_node_text))]
fn put_next_node(text: &mut Text, plan: &Plan, node: u8) -> Result<(), OutOfMemory>
    ensures { OnOk result (text.new ≡ text.old ++ next_node_text plan.now node) }
{
    text.put(b",")?;
    put_node(text, plan, node)
}

// The names of nodes, each after a comma.
fn put_next_nodes(text: &mut Text, plan: &Plan, nodes: &[u8]) -> Result<(), OutOfMemory>
    ensures { OnOk result (text.new ≡ text.old ++ flat_map (next_node_text plan.now) nodes.now) }
{
    for node in nodes {
        put_next_node(text, plan, *node)?;
    }
    Ok(())
}

/// Appends the names of the nodes with commas between them.
#[tactic(auto, unfolding(crate::specs::Served::path_text))]
pub fn put_path(text: &mut Text, plan: &Plan, nodes: &[u8]) -> Result<(), OutOfMemory>
    ensures { OnOk result (text.new ≡ text.old ++ path_text plan.now nodes.now) }
{
    match nodes {
        [] => Ok(()),
        [first, rest @ ..] => {
            put_node(text, plan, *first)?;
            put_next_nodes(text, plan, rest)
        }
    }
}
