//! The titles that a target makes of those of a class, without those that get too many digits (Q.714 section 2).
ghost use Rattle.std.specs.Prelude.{◌≡◌, ◌<◌, length, IfSome, None, Some};
ghost use Rattle.plan_model.specs.Network.{LeadsOn};
ghost use Rattle.plan_classes.specs.Titles.{Titles, IsClass, titles};
ghost use Rattle.plan_classes.specs.Classes.{Decided, class_row};
ghost use Rattle.plan_unused.specs.Fitting.{at_most_32, fitting, HasFitting, IsSentOnAs};

use crate::rows::class_node;
use plan_classes::Class;
use plan_model::{Node, Plan, Spot};
use plan_rules::{Row, Target};

/// The titles at another node that begin with other digits, those of a spot, and go on as those of the class, as far as they have at
/// most 32 digits. `None` if the shortest has more.
fn at_most_32(class: &Class, first: &Spot) -> Option<Class>
    ensures { result ≡ at_most_32 (titles class.now.cover first.now.node first.now.selector first.now.ssn first.now.digits
        class.now.least class.now.most) }
{
    let room = 32 - first.digits.len();
    if room < usize::from(class.least()) {
        return None;
    }
    Class::new(
        class.cover(),
        first,
        class.least(),
        class.most().min(room as u8),
    )
}

/// What one target makes of a class.
fn fitting(plan: &Plan, node: &Node, class: &Class, target: &Target) -> Option<Class>
    requires { LeadsOn plan.now.nodes node.now target.now }
    ensures { result ≡ fitting plan.now class.now target.now }
{
    match target {
        Target::Final { .. } => None,
        Target::Relay {
            pc,
            strip,
            put,
            selector,
            ssn,
        } => {
            let to = plan.relay_at(*pc);
            match class.known().rewritten(*strip, put) {
                Some(digits) => {
                    let first = Spot {
                        node: to,
                        selector: selector.unwrap_or(class.selector()),
                        ssn: ssn.unwrap_or(class.ssn()),
                        digits,
                    };
                    at_most_32(class, &first)
                }
                None => None,
            }
        }
    }
}

/// The titles that a target of a decided class's row makes of those of the class, without those that get more than 32 digits.
/// `None` under a destination, and if all get too many digits. The row was looked up before.
pub(crate) fn fitting_by(plan: &Plan, class: &Class, row: &Row, target: u8) -> Option<Class>
    requires node { class.now.node < length plan.now.nodes }
    requires row { class_row plan.now class.now ≡ Some row.now }
    requires place { target < length row.now.targets }
    ensures found { IfSome result (HasFitting plan.now class.now target) }
    ensures none { result ≡ None → (next : Titles) → HasFitting plan.now class.now target next → ⊥ }
    ensures stays { IfSome result (λ next. next.node < length plan.now.nodes) }
{
    let node = class_node(plan, class);
    match row.target(usize::from(target)) {
        Some(leading) => fitting(plan, node, class, leading),
        None => unreachable!(),
    }
}
