//! The coupling of one node, as the layer above holds it: its sections, and what it does with each message.
ghost use Rattle.std.specs.Prelude.{◌≡◌, ◌<◌, [], map, length, IfOk, OnOk, OnErr};
ghost use Rattle.sccp_couple.specs.Coupling.{coupled};
ghost use Rattle.sccp_couple.specs.Invariant.{IsCoupling};
ghost use Rattle.sccp_couple.specs.Sections.{known, is_established};
ghost use Rattle.sccp_couple.specs.Sending.{written_sent, HasShortParts};
ghost use Rattle.sccp_couple.specs.Ways.{event_of};

use crate::answering::{on_complete, on_confirm, on_data, on_refusal};
use crate::connection_confirm::ConnectionConfirm;
use crate::connection_request::ConnectionRequest;
use crate::released::Released;
use crate::releasing::on_release;
use crate::requesting::on_request;
use crate::routing_control::RoutingControl;
use crate::section::Section;
use crate::sections::Sections;
use plan_model::Plan;
use sccp_base::{List, Marking, OutOfMemory, PointCode, Reference};
use sccp_manage::Sent;
use sccp_message::Message;
use std::alloc::Global;
use std::marker::Model;

/// The coupling of connections at one node of a plan.
#[derive(Drop)]
pub struct Exchange {
    alloc: Global,
    node: u8,
    sections: Sections,
}

impl Model for Exchange {
    ghost use Rattle.sccp_couple.specs.Exchanges.{Exchanging};
    ghost use Rattle.sccp_couple.specs.Invariant.{IsCoupling};

    ghost Value = { Exchanging };

    ghost view = { λ e. record { node = e.node; sections = e.sections } };

    ghost invariant = { λ e. IsCoupling e.sections };
}

impl Exchange {
    /// A coupling without sections. The node is given by its place in the plan. This takes no memory.
    pub fn new(alloc: Global, node: u8) -> Exchange
        ensures node { result.node ≡ node }
        ensures sections { result.sections ≡ [] }
    {
        Exchange {
            alloc,
            node,
            sections: Sections::new(alloc),
        }
    }

    /// What the node does with a connection-oriented message from a point (Q.714 section 3). The result is what it sends, in
    /// this order. A connectionless message changes nothing and is not answered.
    ///
    /// The only error is lack of memory; it leaves the sections as they were.
    pub fn on(
        &mut self,
        plan: &Plan,
        marking: &Marking,
        origin: PointCode,
        message: &Message,
    ) -> Result<List<Sent>, OutOfMemory>
        requires node { self.old.node < length plan.now.nodes }
        requires short { HasShortParts message.now }
        ensures node { self.new.node ≡ self.old.node }
        ensures sections { OnOk result (self.new.sections
            ≡ (coupled self.old.sections (event_of plan.now self.old.node marking.now origin message.now)).sections) }
        ensures sent { IfOk result (λ sent. sent ≡ map written_sent
            (coupled self.old.sections (event_of plan.now self.old.node marking.now origin message.now)).sent) }
        ensures err { OnErr result (self.new ≡ self.old) }
    {
        let alloc = self.alloc;
        match message {
            Message::Cr {
                slr,
                class,
                called,
                params,
            } => {
                let control = RoutingControl {
                    plan,
                    node: self.node,
                    marking,
                };
                let request = ConnectionRequest {
                    origin,
                    slr: *slr,
                    class: *class,
                    called,
                    params,
                };
                on_request(alloc, &control, &mut self.sections, &request)
            }
            Message::Cc {
                dlr,
                slr,
                class,
                params,
            } => {
                let confirm = ConnectionConfirm {
                    origin,
                    dlr: *dlr,
                    slr: *slr,
                    class: *class,
                    params,
                };
                on_confirm(alloc, &mut self.sections, &confirm)
            }
            Message::Cref { dlr, cause, params } => {
                on_refusal(alloc, &mut self.sections, origin, *dlr, *cause, params)
            }
            Message::Rlsd {
                dlr,
                slr,
                cause,
                params,
            } => {
                let released = Released {
                    origin,
                    dlr: *dlr,
                    slr: *slr,
                    cause: *cause,
                    params,
                };
                on_release(alloc, &mut self.sections, &released)
            }
            Message::Rlc { dlr, slr } => {
                on_complete(&mut self.sections, origin, *dlr, *slr);
                Ok(List::new(alloc))
            }
            Message::Dt1 { dlr, more, payload } => {
                on_data(alloc, &self.sections, origin, *dlr, *more, payload)
            }
            _ => Ok(List::new(alloc)),
        }
    }

    /// The place of this node in the plan.
    pub fn node(&self) -> u8
        ensures { result ≡ self.now.node }
    {
        self.node
    }

    /// The sections in the order in which they were made. Of each pair the near one is first.
    pub fn sections(&self) -> &List<Section>
        ensures value { result.now ≡ self.now.sections }
        ensures kept { IsCoupling self.now.sections }
    {
        self.sections.list()
    }

    /// The section to which a message from this point with this destination local reference belongs.
    pub fn known(&self, origin: PointCode, dlr: Reference) -> Option<Section>
        ensures { result ≡ known self.now.sections origin dlr }
    {
        self.sections.known(origin, dlr)
    }

    /// Whether data can pass: the section and its other section both have a remote reference.
    pub fn is_established(&self, section: &Section) -> bool
        ensures { result ≡ is_established self.now.sections section.now }
    {
        self.sections.is_established(section)
    }

    /// A copy of the coupling in memory of its own. The only error is lack of memory.
    pub fn try_clone(&self) -> Result<Exchange, OutOfMemory>
        ensures { IfOk result (λ copy. copy ≡ self.now) }
    {
        Ok(Exchange {
            alloc: self.alloc,
            node: self.node,
            sections: self.sections.try_clone()?,
        })
    }
}
