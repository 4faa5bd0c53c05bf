//! The command that gives an order in which relays can be given the second of two plans.
ghost use Rattle.std.specs.Prelude.{◌≡◌, IfOk};
ghost use Rattle.plan_model.specs.SameNodes.{SameNodes};
ghost use Rattle.plan_order.specs.Orders.{IsLawfulOrder};
ghost use Rattle.sccp_plans.specs.Order.{order_work, order_status, IsOrderGiven};
ghost use Rattle.sccp_plans.specs.TwoPlans.{old_word, new_word};
ghost use Rattle.sccp_work.specs.Ending.{Works};
ghost use Rattle.sccp_work.specs.Moment.{moment};

use crate::answer::Answer;
use crate::changing::{NEW, OLD, other_nodes};
use order_report::order_text;
use plan_check::Accepted;
use plan_model::have_same_nodes;
use plan_order::{ChangeFault, Order};
use sccp_base::OutOfMemory;
use sccp_io::{Files, Sink};
use sccp_work::{PlanPath, Status, Stop, print_last, with_accepted};
use std::alloc::Global;

/// Prints in which order relays can be given the second of the plans of two files. The first file that has no accepted plan
/// gives the answer.
#[tactic(auto, unfolding(crate::specs::TwoPlans::old_word, crate::specs::TwoPlans::new_word))]
pub fn order<F: Files, K: Sink>(
    alloc: Global,
    old: &PlanPath<'_>,
    new: &PlanPath<'_>,
    files: &mut F,
    out: &mut K,
) -> Result<Status, Stop>
    ensures { Works (order_work old.now new.now) result
        (moment F.contents F.sound F.faults K.taken K.faults files.old out.old)
        (moment F.contents F.sound F.faults K.taken K.faults files.new out.new) }
{
    let first = with_accepted(alloc, OLD, old, files, out)?;
    match with_accepted(alloc, NEW, new, files, out) {
        Ok(second) => {
            let answer = answer_on(alloc, &first, &second);
            drop(first);
            drop(second);
            let answer = answer?;
            print_last(out, answer.text.as_slice(), answer.status)
        }
        Err(stop) => {
            drop(first);
            Err(stop)
        }
    }
}

/// The answer on two accepted plans.
fn answer_on(alloc: Global, old: &Accepted, new: &Accepted) -> Result<Answer, OutOfMemory>
    ensures { IfOk result (λ answer. IsOrderGiven old.now.plan new.now.plan answer.status answer.text) }
{
    match plan_order::order(alloc, old, new) {
        Ok(order) => {
            prove!(have_same_nodes(old.plan(), new.plan()));
            let told = told(alloc, old, new, &order);
            drop(order);
            told
        }
        Err(ChangeFault::OtherNodes) => other_nodes(alloc),
        Err(ChangeFault::OutOfMemory) => Err(OutOfMemory),
    }
}

/// The answer if the plans have the same nodes.
fn told(alloc: Global, old: &Accepted, new: &Accepted, order: &Order) -> Result<Answer, OutOfMemory>
    requires lawful { IsLawfulOrder old.now.plan new.now.plan order.now }
    requires same { SameNodes old.now.plan new.now.plan }
    ensures { IfOk result (λ answer. IsOrderGiven old.now.plan new.now.plan answer.status answer.text) }
{
    Ok(Answer {
        status: status_of_order(order),
        text: order_text(alloc, old.plan(), new.plan(), order)?,
    })
}

/// The status of an answer on an order.
fn status_of_order(order: &Order) -> Status
    ensures { result ≡ order_status order.now }
{
    match order {
        Order::Steps(_) => Status::Done,
        Order::NoOrder(_, _) => Status::Refused,
        Order::Undecided => Status::TooWide,
    }
}
