//! The texts of numbers of up to 64 bits, and of points.
ghost use Rattle.std.specs.Prelude.{◌≡◌, ◌++◌, decimal, OnOk};
ghost use Rattle.watch_text.specs.Lines.{point_text};

use plan_model::Plan;
use sccp_base::{OutOfMemory, PointCode};
use sccp_report::{Text, put_node, put_point_code};

/// Appends a number in decimal.
pub fn put_number(text: &mut Text, number: u64) -> Result<(), OutOfMemory>
    ensures { OnOk result (text.new ≡ text.old ++ decimal number) }
{
    text.put(itoa::Buffer::new().format(number).as_bytes())
}

/// Appends the name of the plan's relay at a point, or the point.
#[tactic(auto, unfolding(crate::specs::Lines::point_text))]
pub fn put_point(text: &mut Text, plan: &Plan, pc: PointCode) -> Result<(), OutOfMemory>
    ensures { OnOk result (text.new ≡ text.old ++ point_text plan.now pc) }
{
    match plan.node_at(pc) {
        Some(node) => put_node(text, plan, node),
        None => put_point_code(text, pc),
    }
}
