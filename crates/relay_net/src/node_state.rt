//! The state of one node, and what happens at it.
ghost use Rattle.std.specs.Prelude.{◌≡◌, ◌<◌, ◌≤◌, length, IfOk, OnOk, OnErr};
ghost use Rattle.sccp_message.specs.Written.{Sound};
ghost use Rattle.sccp_manage.specs.Managing.{row};
ghost use Rattle.sccp_segment.specs.Pooling.{took};
ghost use Rattle.sccp_segment.specs.Segments.{arrival_of};
ghost use Rattle.sccp_couple.specs.Coupling.{coupled};
ghost use Rattle.sccp_couple.specs.Sending.{HasShortParts};
ghost use Rattle.sccp_couple.specs.Ways.{event_of};
ghost use Rattle.relay_net.specs.States.{CanHappen, after_coupled, after_delivered, after_managed, after_pooled, first_state, happened};
ghost use Rattle.relay_net.specs.States.{marking_of};

use crate::happening::Happening;
use crate::holds_marking::HoldsMarking;
use crate::outcome::Outcome;
use crate::sending::as_outcomes;
use plan_model::{Node, Plan};
use sccp_base::{List, Marking, OutOfMemory, PointCode};
use sccp_couple::Exchange;
use sccp_manage::{Event, Manager};
use sccp_message::Message;
use sccp_segment::{Arrival, Key, Pool, PoolFault, Segment};
use std::alloc::Global;
use std::marker::Model;

/// What a node keeps: its management with what is prohibited, its connection sections, and the messages that are being put
/// together from segments.
#[derive(Drop)]
pub struct NodeState {
    manager: Manager,
    exchange: Exchange,
    pool: Pool,
    // The number of concerned points, which are informed of each change of a subsystem.
    concerned: usize,
}

impl Model for NodeState {
    ghost use Rattle.std.specs.Prelude.{◌≡◌, length};
    ghost use Rattle.relay_net.specs.States.{State};

    ghost Value = { State };

    ghost view = { λ s. record { node = s.exchange.node; manager = s.manager; sections = s.exchange.sections; runs = s.pool } };

    ghost invariant = { λ s. s.concerned ≡ length s.manager.concerned };
}

impl NodeState {
    /// The state of a node at a place of the plan, at which nothing is prohibited, connected or under way.
    pub(crate) fn new(alloc: Global, place: u8, node: &Node) -> Result<NodeState, OutOfMemory>
        ensures { IfOk result (λ s. s ≡ first_state place node.now) }
    {
        let manager = Manager::new(
            alloc,
            node.pc,
            node.subsystems.as_slice(),
            node.concerned.as_slice(),
        )?;
        Ok(NodeState {
            manager,
            exchange: Exchange::new(alloc, place),
            pool: Pool::new(alloc),
            concerned: node.concerned.as_slice().len(),
        })
    }

    /// What the node holds prohibited.
    pub fn marking(&self) -> &Marking
        ensures { result.now ≡ marking_of self.now }
    {
        self.manager.marking()
    }

    /// Carries out what happens at the node, by the part of its state that is concerned. If memory runs out, nothing
    /// changes.
    pub(crate) fn happen(
        &mut self,
        alloc: Global,
        plan: &Plan,
        what: Happening,
    ) -> Result<List<Outcome>, OutOfMemory>
        requires node { self.old.node < length plan.now.nodes }
        requires what { CanHappen what }
        ensures state { OnOk result (self.new ≡ (happened plan.now self.old.node self.old what).state) }
        ensures outcomes { IfOk result (λ outcomes. outcomes ≡ (happened plan.now self.old.node self.old what).outcomes) }
        ensures err { OnErr result (self.new ≡ self.old) }
    {
        match what {
            Happening::Managed(event) => self.manage(alloc, event),
            Happening::Connected { origin, message } => {
                let coupled = self.couple(alloc, plan, origin, &message);
                drop(message);
                coupled
            }
            Happening::Delivered { message } => self.deliver(alloc, message),
        }
    }

    // Carries out an event at management. All memory is there before the state changes.
    fn manage(&mut self, alloc: Global, event: Event) -> Result<List<Outcome>, OutOfMemory>
        ensures state { OnOk result (self.new ≡ (after_managed self.old event).state) }
        ensures outcomes { IfOk result (λ outcomes. outcomes ≡ (after_managed self.old event).outcomes) }
        ensures err { OnErr result (self.new ≡ self.old) }
    {
        let room = Vec::with_capacity(alloc, self.most_sent(&event))?;
        let sent = self.manager.on(event)?;
        Ok(as_outcomes(room, sent))
    }

    // The most messages that are sent at an event: one to each concerned point, one about each mark, or one.
    fn most_sent(&self, event: &Event) -> usize
        ensures { length (row self.now.manager event.now).sends ≤ result }
    {
        match event {
            Event::Up(_) => self.concerned,
            Event::Down(_) => self.concerned,
            Event::Tick => self.marking().marks().len(),
            _ => 1,
        }
    }

    // A connection-oriented message that is delivered here goes to the exchange of coupled connections, which may answer it.
    fn couple(
        &mut self,
        alloc: Global,
        plan: &Plan,
        origin: PointCode,
        message: &Message,
    ) -> Result<List<Outcome>, OutOfMemory>
        requires node { self.old.node < length plan.now.nodes }
        requires short { HasShortParts message.now }
        ensures state { OnOk result
            (self.new ≡ (after_coupled self.old (coupled self.old.sections
            (event_of plan.now self.old.node (marking_of self.old) origin message.now))).state) }
        ensures outcomes { IfOk result (λ outcomes. outcomes
            ≡ (after_coupled self.old (coupled self.old.sections
            (event_of plan.now self.old.node (marking_of self.old) origin message.now))).outcomes) }
        ensures err { OnErr result (self.new ≡ self.old) }
    {
        // At most two messages answer a message.
        let room = Vec::with_capacity(alloc, 2)?;
        let sent = self
            .exchange
            .on(plan, self.manager.marking(), origin, message)?;
        Ok(as_outcomes(room, sent))
    }

    // A connectionless message that is delivered here. A segment is put with those of its message; anything else is left to
    // its user.
    fn deliver(&mut self, alloc: Global, message: Message) -> Result<List<Outcome>, OutOfMemory>
        requires { Sound message }
        ensures state { OnOk result (self.new ≡ (after_delivered self.old (arrival_of message)).state) }
        ensures outcomes { IfOk result (λ outcomes. outcomes ≡ (after_delivered self.old (arrival_of message)).outcomes) }
        ensures err { OnErr result (self.new ≡ self.old) }
    {
        match Arrival::of(message) {
            None => Ok(List::new(alloc)),
            Some(Arrival { key, segment }) => self.put(alloc, key, segment),
        }
    }

    /// The same of a message that stays with its owner.
    pub(crate) fn receive(
        &mut self,
        alloc: Global,
        message: &Message,
    ) -> Result<List<Outcome>, OutOfMemory>
        requires { Sound message.now }
        ensures state { OnOk result (self.new ≡ (after_delivered self.old (arrival_of message.now)).state) }
        ensures outcomes { IfOk result (λ outcomes. outcomes ≡ (after_delivered self.old (arrival_of message.now)).outcomes) }
        ensures err { OnErr result (self.new ≡ self.old) }
    {
        match Arrival::copied(alloc, message)? {
            None => Ok(List::new(alloc)),
            Some(Arrival { key, segment }) => self.put(alloc, key, segment),
        }
    }

    // Puts a segment into the pool.
    fn put(
        &mut self,
        alloc: Global,
        key: Key,
        segment: Segment,
    ) -> Result<List<Outcome>, OutOfMemory>
        ensures state { OnOk result (self.new ≡ (after_pooled self.old (took self.old.runs key segment)).state) }
        ensures outcomes { IfOk result (λ outcomes. outcomes ≡ (after_pooled self.old (took self.old.runs key segment)).outcomes) }
        ensures err { OnErr result (self.new ≡ self.old) }
    {
        let mut outcomes = Vec::with_capacity(alloc, 1)?;
        match self.pool.take(key, segment) {
            Ok(taken) => outcomes.push_reserved(Outcome::Segment(taken)),
            Err(PoolFault::Full) => outcomes.push_reserved(Outcome::PoolFull),
            Err(PoolFault::OutOfMemory) => return Err(OutOfMemory),
        }
        Ok(List::from_vec(outcomes))
    }
}

impl HoldsMarking for NodeState {
    ghost held = { marking_of };

    fn marking(&self) -> &Marking {
        self.marking()
    }
}
