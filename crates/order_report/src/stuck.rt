//! The text of the relays none of which can be next.
ghost use Rattle.std.specs.Prelude.{◌≡◌, ◌++◌, All, OnOk};
ghost use Rattle.std.specs.List.{flat_map};
ghost use Rattle.order_report.specs.Orders.{broken_text, stuck_words, stuck_text, HasTurns};

use plan_change::Change;
use plan_model::Plan;
use plan_order::Stuck;
use sccp_base::OutOfMemory;
use sccp_report::{Text, put_both_covers, put_kind, put_mixed_hops, put_node};

/// Appends the kind, the covers and the hops of a bad mixed route.
fn put_why(text: &mut Text, plan: &Plan, why: &Change) -> Result<(), OutOfMemory>
    requires { HasTurns why.now }
    ensures { OnOk result (text.new ≡ text.old ++ broken_text plan.now why.now) }
{
    match why {
        Change::Broken {
            old_cover,
            new_cover,
            turns,
            hops,
            kind,
            ..
        } => {
            put_kind(text, *kind)?;
            put_both_covers(text, *old_cover, *new_cover)?;
            put_mixed_hops(text, plan, hops.as_slice(), turns.as_slice())
        }
        _ => unreachable!(),
    }
}

/// Appends that a relay cannot be next.
#[tactic(auto, unfolding(crate::specs::Orders::stuck_words))]
fn put_stuck_words(text: &mut Text, plan: &Plan, node: u8) -> Result<(), OutOfMemory>
    ensures { OnOk result (text.new ≡ text.old ++ stuck_words plan.now node) }
{
    text.put(b"stuck ")?;
    put_node(text, plan, node)?;
    text.put(b" ")
}

/// Appends that a relay cannot be next, and the bad mixed route that shows it.
fn put_stuck(text: &mut Text, plan: &Plan, stuck: &Stuck) -> Result<(), OutOfMemory>
    requires { HasTurns stuck.now.why }
    ensures { OnOk result (text.new ≡ text.old ++ stuck_text plan.now stuck.now) }
{
    put_stuck_words(text, plan, stuck.node)?;
    put_why(text, plan, &stuck.why)
}

/// Appends these lines for each relay.
pub fn put_stuck_relays(text: &mut Text, plan: &Plan, stuck: &[Stuck]) -> Result<(), OutOfMemory>
    requires { All (λ s. HasTurns s.why) stuck.now }
    ensures { OnOk result (text.new ≡ text.old ++ flat_map (stuck_text plan.now) stuck.now) }
{
    for relay in stuck {
        put_stuck(text, plan, relay)?;
    }
    Ok(())
}
