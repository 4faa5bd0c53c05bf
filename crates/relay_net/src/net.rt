//! The states of all nodes of a plan, and what happens at one of them.
ghost use Rattle.std.specs.Prelude.{◌≡◌, ◌<◌, length, IfOk, OnOk, OnErr};
ghost use Rattle.std.specs.Prelude.{◌==◌, None, Some};
ghost use Rattle.std.specs.Option.{option_map};
ghost use Rattle.plan_model.specs.Network.{Network};
ghost use Rattle.sccp_message.specs.Reading.{reading};
ghost use Rattle.sccp_message.specs.Written.{Sound};
ghost use Rattle.sccp_manage.specs.declared.event.Event.TheVariants.{Knock};
ghost use Rattle.relay_net.specs.declared.happening.Happening.TheVariants as happenings;
ghost use Rattle.relay_net.specs.States.{first_states, applied, CanHappen};
ghost use Rattle.relay_net.specs.Batches.{CanBeDone, applied_after, applied_if_due, due, due_after, incoming, ssn_in};

use crate::end::End;
use crate::ends::{last_node, ssn_in};
use crate::happening::Happening;
use crate::node_state::NodeState;
use crate::outcome::Outcome;
use crate::travelled::Journey;
use plan_model::Plan;
use sccp_base::{List, OutOfMemory, PointCode};
use sccp_manage::Event;
use sccp_message::Message;
use std::alloc::Global;
use std::marker::Model;

/// The states of the nodes of a plan, in their order.
#[derive(Drop)]
pub struct Net {
    alloc: Global,
    states: Vec<NodeState>,
}

impl Model for Net {
    ghost use Rattle.std.specs.Prelude.{List};
    ghost use Rattle.relay_net.specs.States.{State, AreInPlace};

    ghost Value = { List State };

    ghost view = { λ n. n.states.items };

    ghost invariant = { λ n. AreInPlace n.states.items };
}

impl Net {
    /// The states of the nodes of a plan: nothing is prohibited, connected or under way. It keeps the allocator for all that
    /// it does later.
    pub fn new(alloc: Global, plan: &Plan) -> Result<Net, OutOfMemory>
        ensures { IfOk result (λ net. net ≡ first_states plan.now) }
    {
        let mut states = Vec::new(alloc);
        for (place, node) in plan.nodes().as_slice().iter().enumerate() {
            states.push(NodeState::new(alloc, place as u8, node)?)?;
        }
        Ok(Net { alloc, states })
    }

    /// The state of each node, in the order of the plan.
    pub fn states(&self) -> &[NodeState]
        ensures { result.now ≡ self.now }
    {
        self.states.as_slice()
    }

    /// Carries out what happens at the node at a place of the plan, and answers its outcomes, in order. All other nodes, and
    /// the other parts of this one's state, stay as they are. If memory runs out, nothing changes, and there are no
    /// outcomes.
    pub fn apply(
        &mut self,
        plan: &Plan,
        node: u8,
        what: Happening,
    ) -> Result<List<Outcome>, OutOfMemory>
        requires nodes { length plan.now.nodes ≡ length self.old }
        requires node { node < length self.old }
        requires what { CanHappen what }
        ensures states { OnOk result (self.new ≡ (applied plan.now self.old node what).states) }
        ensures outcomes { IfOk result (λ outcomes. outcomes ≡ (applied plan.now self.old node what).outcomes) }
        ensures err { OnErr result (self.new ≡ self.old) }
    {
        let alloc = self.alloc;
        self.states[usize::from(node)].happen(alloc, plan, what)
    }

    /// Does what the end of a journey leaves to be done. The message arrived from the point `origin` at the node at the
    /// place `entry`.
    ///
    /// A message for a subsystem of the last node is delivered there. One that routes on SSN and was returned with cause 3,
    /// subsystem failure, was for a prohibited subsystem of the entry node. That node's management informs the origin.
    /// Nothing else is done, and nothing for the end of a service message. If memory runs out, nothing changes.
    pub fn apply_after(
        &mut self,
        plan: &Plan,
        entry: u8,
        origin: PointCode,
        octets: &[u8],
        journey: &Journey,
    ) -> Result<List<Outcome>, OutOfMemory>
        requires nodes { length plan.now.nodes ≡ length self.old }
        requires due { CanBeDone (length self.old) (due_after (incoming entry origin octets.now) journey.now.path journey.now.end) }
        ensures states { OnOk result (self.new ≡ (applied_after plan.now self.old (incoming entry origin octets.now) journey.now).states) }
        ensures outcomes { IfOk result (λ outcomes. outcomes
            ≡ (applied_after plan.now self.old (incoming entry origin octets.now) journey.now).outcomes) }
        ensures err { OnErr result (self.new ≡ self.old) }
    {
        match &journey.end {
            End::Local { message, .. } => {
                let node = last_node(entry, journey.path.as_slice());
                self.deliver(node, message.get())
            }
            End::Returned { cause, .. } if *cause == 3 => self.knock(plan, entry, origin, octets),
            _ => Ok(List::new(self.alloc)),
        }
    }

    // Delivers a message that stays with its owner at a node.
    fn deliver(&mut self, node: u8, message: &Message) -> Result<List<Outcome>, OutOfMemory>
        requires node { node < length self.old }
        requires message { Sound message.now }
        ensures states { (plan : Network)
            → OnOk result (self.new ≡ (applied plan self.old node (happenings.Delivered message.now)).states) }
        ensures outcomes { (plan : Network)
            → IfOk result (λ outcomes. outcomes ≡ (applied plan self.old node (happenings.Delivered message.now)).outcomes) }
        ensures err { OnErr result (self.new ≡ self.old) }
    {
        let alloc = self.alloc;
        self.states[usize::from(node)].receive(alloc, message)
    }

    // Informs the origin of a message that routes on SSN that its subsystem is prohibited.
    fn knock(
        &mut self,
        plan: &Plan,
        entry: u8,
        origin: PointCode,
        octets: &[u8],
    ) -> Result<List<Outcome>, OutOfMemory>
        requires nodes { length plan.now.nodes ≡ length self.old }
        requires due { CanBeDone (length self.old) (option_map (λ ssn. due entry (happenings.Managed (Knock origin ssn)))
            (ssn_in (reading octets.now))) }
        ensures states { OnOk result
            (self.new ≡ (applied_if_due plan.now self.old (option_map (λ ssn. due entry (happenings.Managed (Knock origin ssn)))
            (ssn_in (reading octets.now)))).states) }
        ensures outcomes { IfOk result (λ outcomes. outcomes
            ≡ (applied_if_due plan.now self.old (option_map (λ ssn. due entry (happenings.Managed (Knock origin ssn)))
            (ssn_in (reading octets.now)))).outcomes) }
        ensures err { OnErr result (self.new ≡ self.old) }
    {
        match ssn_in(self.alloc, octets)? {
            Some(ssn) => {
                let knock = Event::Knock { from: origin, ssn };
                self.apply(plan, entry, Happening::Managed(knock))
            }
            None => Ok(List::new(self.alloc)),
        }
    }
}
