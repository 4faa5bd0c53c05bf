//! How many nodes, rows and covers a text has.
ghost use Rattle.std.specs.Prelude.{◌≡◌, ◌≤◌, ◌^◌, map, min, sum_by};
ghost use Rattle.toml.specs.View.{view};
ghost use Rattle.plan_text.specs.Counts.{row_count, too_many};

use crate::document::elements_at;
use plan_model::{Counted, Limits, first_limit};
use toml::Value;

/// What there is more of than the limits allow: nodes, rows in all, or covers.
pub fn too_many(limits: Limits, nodes: &[Value], covers: &[Value]) -> Option<Counted>
    ensures { result ≡ too_many limits (map view nodes.now) (map view covers.now) }
{
    let most = limits.rows as usize + 1;
    first_limit(limits, nodes.len(), count_rows(most, nodes), covers.len())
}

/// How many rows the nodes have in all, up to `most`.
fn count_rows(most: usize, nodes: &[Value]) -> usize
    requires { most ≤ 2 ^ 32 }
    ensures { result ≡ min (sum_by row_count (map view nodes.now)) most }
{
    let mut count: usize = 0;
    for node in nodes {
        count = (count + row_count(node).min(most)).min(most);
    }
    count
}

fn row_count(node: &Value) -> usize
    ensures { result ≡ row_count (view node.now) }
{
    elements_at(node, "row").len()
}
