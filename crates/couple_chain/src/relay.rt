//! One relay of a chain: its coupling, and its record of data and references.
ghost use Rattle.std.specs.Prelude.{◌≡◌, ◌<◌, map, length, IfOk, OnOk, OnErr};
ghost use Rattle.sccp_couple.specs.Coupling.{coupled};
ghost use Rattle.sccp_couple.specs.Sending.{written_sent, HasShortParts};
ghost use Rattle.sccp_couple.specs.Ways.{event_of};
ghost use Rattle.sccp_couple.specs.declared.way.Way.{Way};
ghost use Rattle.couple_chain.specs.Relays.{event_with, first_relay, relay_after};

use crate::noting::note;
use crate::passed::Passed;
use plan_model::Plan;
use sccp_base::{List, Marking, OutOfMemory, PointCode, Reference};
use sccp_couple::{Exchange, Section};
use sccp_manage::Sent;
use sccp_message::Message;
use std::alloc::Global;
use std::marker::Model;

/// What a message makes of a relay's coupling, and the messages that are to be sent.
#[derive(Drop)]
pub struct Prepared {
    pub exchange: Exchange,
    pub sent: List<Sent>,
}

/// A relay of a chain: its coupling, the data that its sections passed on, and the own references that it gave.
#[derive(Drop)]
pub struct Relay {
    alloc: Global,
    exchange: Exchange,
    passed: Vec<Passed>,
    given: Vec<Reference>,
}

impl Model for Relay {
    ghost use Rattle.couple_chain.specs.Relays.{Relaying};

    ghost Value = { Relaying };

    ghost view = { λ r. record { node = r.exchange.node; sections = r.exchange.sections; passed = r.passed.items; given = r.given.items } };
}

impl Relay {
    /// A relay without sections. The relay is given by its place in the plan. This takes no memory.
    pub fn new(alloc: Global, node: u8) -> Relay
        ensures { result ≡ first_relay node }
    {
        Relay {
            alloc,
            exchange: Exchange::new(alloc, node),
            passed: Vec::new(alloc),
            given: Vec::new(alloc),
        }
    }

    /// What a connection-oriented message from a point makes of the coupling, and what is to be sent. The relay stays as it
    /// is: it has taken the message only once `commit` has been given the result. The only error is lack of memory.
    pub fn prepare(
        &self,
        plan: &Plan,
        marking: &Marking,
        origin: PointCode,
        message: &Message,
    ) -> Result<Prepared, OutOfMemory>
        requires node { self.now.node < length plan.now.nodes }
        requires short { HasShortParts message.now }
        ensures node { IfOk result (λ p. p.exchange.node ≡ self.now.node) }
        ensures sections { IfOk result (λ p. p.exchange.sections
            ≡ (coupled self.now.sections (event_of plan.now self.now.node marking.now origin message.now)).sections) }
        ensures sent { IfOk result (λ p. p.sent ≡ map written_sent
            (coupled self.now.sections (event_of plan.now self.now.node marking.now origin message.now)).sent) }
    {
        let mut exchange = self.exchange.try_clone()?;
        let sent = exchange.on(plan, marking, origin, message)?;
        Ok(Prepared { exchange, sent })
    }

    /// Takes the coupling that `prepare` made of a message, and notes the data that sections passed on and the references
    /// that were given. The only error is lack of memory; it leaves the relay as it was.
    pub fn commit(
        &mut self,
        exchange: Exchange,
        origin: PointCode,
        message: &Message,
    ) -> Result<(), OutOfMemory>
        requires node { exchange.node ≡ self.old.node }
        ensures ok { OnOk result ((way : Way) → exchange.sections ≡ (coupled self.old.sections (event_with origin message.now way)).sections
            → self.new ≡ relay_after self.old (event_with origin message.now way)) }
        ensures err { OnErr result (self.new ≡ self.old) }
    {
        note(
            self.alloc,
            &mut self.passed,
            &mut self.given,
            &self.exchange,
            &exchange,
            origin,
            message,
        )?;
        self.exchange = exchange;
        Ok(())
    }

    /// The sections in the order in which they were made. Of each pair the near one is first.
    pub fn sections(&self) -> &List<Section>
        ensures { result.now ≡ self.now.sections }
    {
        self.exchange.sections()
    }

    /// The data that the sections passed on, in order. For the sections of a pair that is still there, this is all that they
    /// passed.
    pub fn passed(&self) -> &[Passed]
        ensures { result.now ≡ self.now.passed }
    {
        self.passed.as_slice()
    }

    /// The own references that the relay gave, each as often as it gave it.
    pub fn given(&self) -> &[Reference]
        ensures { result.now ≡ self.now.given }
    {
        self.given.as_slice()
    }
}
