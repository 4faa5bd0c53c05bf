//! The SCCP management of one node, event by event.
ghost use Rattle.std.specs.Prelude.{◌≡◌, ◌==◌, [], ◌∷◌, IfOk, OnOk, OnErr};
ghost use Rattle.sccp_base.specs.Marks.{point_of, same_mark};
ghost use Rattle.sccp_manage.specs.declared.event.Event.TheVariants as events;
ghost use Rattle.sccp_manage.specs.Statuses.{status, sent_to};
ghost use Rattle.sccp_manage.specs.Markings.{IsOpenAt, with_marks, without_marks};
ghost use Rattle.sccp_manage.specs.Managing.{IsMarked, IsManagement, IsNodeOf, is_down, is_own, left, managed, on_allowed, on_down};
ghost use Rattle.sccp_manage.specs.Managing.{on_prohibited, on_status, on_test, on_up, row, told};

use crate::event::Event;
use crate::marking::{allow, allow_point, with_marks};
use crate::sent::{Sent, push, push_if_reached, push_test};
use crate::status::{StatusKind, StatusMessage};
use sccp_base::{List, Mark, Marking, Octets, OutOfMemory, PointCode};
use std::alloc::Global;
use std::marker::Model;

/// The SCCP management of one node (Q.714 section 5).
///
/// It keeps the node's point code, the node's subsystems, the concerned points and what is prohibited. The concerned points
/// are informed when one of the subsystems goes down or up.
#[derive(Drop)]
pub struct Manager {
    alloc: Global,
    own: PointCode,
    subsystems: Octets,
    concerned: List<PointCode>,
    marking: Marking,
}

impl Model for Manager {
    ghost use Rattle.sccp_manage.specs.Managing.{Management, IsManagement};

    ghost Value = { Management };

    ghost view = { λ m. record { own = m.own; subsystems = m.subsystems; concerned = m.concerned; marking = m.marking } };

    ghost invariant = { λ m. IsManagement
        (record { own = m.own; subsystems = m.subsystems; concerned = m.concerned; marking = m.marking }) };
}

#[tactic(auto, using(crate::proofs::Left::left_as_it_was, crate::proofs::Left::left_with, crate::proofs::Left::left_without))]
impl Manager {
    /// The management of a node at which nothing is prohibited. It is given the node's point code, its subsystem numbers,
    /// and the concerned points in the order in which they are informed. It keeps the allocator for all that it does later.
    pub fn new(
        alloc: Global,
        own: PointCode,
        subsystems: &[u8],
        concerned: &[PointCode],
    ) -> Result<Manager, OutOfMemory>
        ensures { IfOk result (λ m. m ≡ record { own = own; subsystems = subsystems.now; concerned = concerned.now; marking = [] }) }
    {
        Ok(Manager {
            alloc,
            own,
            subsystems: Octets::from_vec(Vec::from_slice(alloc, subsystems)?),
            concerned: List::from_vec(Vec::from_slice(alloc, concerned)?),
            marking: Marking::new(alloc),
        })
    }

    /// What is prohibited. The node's own point and its SCCP never are; a subsystem of the node is while it is down.
    pub fn marking(&self) -> &Marking
        ensures value { result.now ≡ self.now.marking }
        ensures kept { IsManagement self.now }
    {
        &self.marking
    }

    /// Carries out an event by its row of the table (Q.714 section 5), and answers the messages that are to be sent, in
    /// their order. If memory runs out, the manager is as it was, and nothing is to be sent.
    pub fn on(&mut self, event: Event) -> Result<List<Sent>, OutOfMemory>
        ensures state { OnOk result (self.new ≡ managed self.old event) }
        ensures held { OnOk result (IsMarked self.old.marking (row self.old event) self.new.marking) }
        ensures sent { IfOk result (λ sent. sent ≡ (row self.old event).sends) }
        ensures err { OnErr result (self.new ≡ self.old) }
        ensures node { IsNodeOf self.old self.new }
        ensures kept { IsManagement self.new }
    {
        let sent = self.carry_out(event);
        // The call ensures what every manager keeps.
        let _kept = self.marking();
        sent
    }

    // The event by its row.
    fn carry_out(&mut self, event: Event) -> Result<List<Sent>, OutOfMemory>
        ensures state { OnOk result (self.new ≡ managed self.old event) }
        ensures sent { IfOk result (λ sent. sent ≡ (row self.old event).sends) }
        ensures err { OnErr result (self.new ≡ self.old) }
    {
        match event {
            Event::Status { from, payload } => {
                self.on_status(from, StatusMessage::read(payload.as_slice()))
            }
            Event::Knock { from, ssn } => self.one(from, StatusKind::Prohibited, ssn),
            Event::Pause(pc) => self.on_pause(pc),
            Event::Resume(pc) => self.on_resume(pc),
            Event::NoSccp(pc) => self.on_no_sccp(pc),
            Event::Up(ssn) => self.on_up(ssn),
            Event::Down(ssn) => self.on_down(ssn),
            Event::Tick => self.tests(),
        }
    }

    // A status message from a point; none if the data is not one.
    fn on_status(
        &mut self,
        from: PointCode,
        status: Option<StatusMessage>,
    ) -> Result<List<Sent>, OutOfMemory>
        ensures state { OnOk result (self.new ≡ left self.old (on_status self.old from status)) }
        ensures sent { IfOk result (λ sent. sent ≡ (on_status self.old from status).sends) }
        ensures err { OnErr result (self.new ≡ self.old) }
    {
        let Some(StatusMessage { kind, ssn, pc }) = status else {
            return Ok(List::new(self.alloc));
        };
        match kind {
            StatusKind::Allowed => {
                self.on_allowed(pc, ssn);
                Ok(List::new(self.alloc))
            }
            StatusKind::Prohibited => {
                self.on_prohibited(pc, ssn)?;
                Ok(List::new(self.alloc))
            }
            StatusKind::Test => self.answer(from, pc, ssn),
            StatusKind::OutOfServiceRequest
            | StatusKind::OutOfServiceGrant
            | StatusKind::Congested => Ok(List::new(self.alloc)),
        }
    }

    // A subsystem of another point is allowed. Management itself (subsystem 1) being allowed says that the SCCP there is
    // back.
    #[tactic(auto, using(crate::proofs::Left::left_as_it_was, crate::proofs::Left::left_without, crate::proofs::Left::left_allowed))]
    fn on_allowed(&mut self, pc: PointCode, ssn: u8)
        ensures { self.new ≡ left self.old (on_allowed self.old pc ssn) }
    {
        if pc != self.own {
            self.allow(Mark::Subsystem(pc, ssn));
            if ssn == 1 {
                self.allow(Mark::Sccp(pc));
            }
        }
    }

    // A subsystem of another point is prohibited; management itself (subsystem 1) never is.
    fn on_prohibited(&mut self, pc: PointCode, ssn: u8) -> Result<(), OutOfMemory>
        ensures ok { OnOk result (self.new ≡ left self.old (on_prohibited self.old pc ssn)) }
        ensures err { OnErr result (self.new ≡ self.old) }
    {
        if pc != self.own && ssn != 1 {
            self.prohibit(&[Mark::Subsystem(pc, ssn)])?;
        }
        Ok(())
    }

    // What a subsystem status test is answered: that the subsystem is allowed, or nothing.
    fn answer(&self, from: PointCode, pc: PointCode, ssn: u8) -> Result<List<Sent>, OutOfMemory>
        ensures { IfOk result (λ sent. sent ≡ (on_test self.now from pc ssn).sends) }
    {
        if pc == self.own && (ssn == 1 || (self.is_own(ssn) && !self.is_down(ssn))) {
            self.one(from, StatusKind::Allowed, ssn)
        } else {
            Ok(List::new(self.alloc))
        }
    }

    // A point cannot be reached, and so its SCCP cannot either.
    fn on_pause(&mut self, pc: PointCode) -> Result<List<Sent>, OutOfMemory>
        ensures state { OnOk result (self.new ≡ managed self.old (events.Pause pc)) }
        ensures sent { IfOk result (λ sent. sent ≡ []) }
        ensures err { OnErr result (self.new ≡ self.old) }
    {
        if pc != self.own {
            self.prohibit(&[Mark::PointCode(pc), Mark::Sccp(pc)])?;
        }
        Ok(List::new(self.alloc))
    }

    // A point can be reached again; its SCCP and its subsystems are taken to be there.
    fn on_resume(&mut self, pc: PointCode) -> Result<List<Sent>, OutOfMemory>
        ensures state { OnOk result (self.new ≡ managed self.old (events.Resume pc)) }
        ensures sent { IfOk result (λ sent. sent ≡ []) }
        ensures err { OnErr result (self.new ≡ self.old) }
    {
        if pc != self.own {
            self.allow_point(pc);
        }
        Ok(List::new(self.alloc))
    }

    // A point has no SCCP.
    fn on_no_sccp(&mut self, pc: PointCode) -> Result<List<Sent>, OutOfMemory>
        ensures state { OnOk result (self.new ≡ managed self.old (events.NoSccp pc)) }
        ensures sent { IfOk result (λ sent. sent ≡ []) }
        ensures err { OnErr result (self.new ≡ self.old) }
    {
        if pc != self.own {
            self.prohibit(&[Mark::Sccp(pc)])?;
        }
        Ok(List::new(self.alloc))
    }

    // A subsystem of the node goes down. The concerned points are informed once.
    fn on_down(&mut self, ssn: u8) -> Result<List<Sent>, OutOfMemory>
        ensures state { OnOk result (self.new ≡ left self.old (on_down self.old ssn)) }
        ensures sent { IfOk result (λ sent. sent ≡ (on_down self.old ssn).sends) }
        ensures err { OnErr result (self.new ≡ self.old) }
    {
        if self.is_own(ssn) && !self.is_down(ssn) {
            let sent = self.told(StatusKind::Prohibited, ssn)?;
            self.prohibit(&[Mark::Subsystem(self.own, ssn)])?;
            Ok(sent)
        } else {
            Ok(List::new(self.alloc))
        }
    }

    // A subsystem of the node goes up. The concerned points are informed once.
    fn on_up(&mut self, ssn: u8) -> Result<List<Sent>, OutOfMemory>
        ensures state { OnOk result (self.new ≡ left self.old (on_up self.old ssn)) }
        ensures sent { IfOk result (λ sent. sent ≡ (on_up self.old ssn).sends) }
        ensures err { OnErr result (self.new ≡ self.old) }
    {
        if self.is_own(ssn) && self.is_down(ssn) {
            let sent = self.told(StatusKind::Allowed, ssn)?;
            self.allow(Mark::Subsystem(self.own, ssn));
            Ok(sent)
        } else {
            Ok(List::new(self.alloc))
        }
    }

    // Prohibits marks, of which none is the node's own point or its SCCP. If memory runs out, none is prohibited.
    fn prohibit(&mut self, marks: &[Mark]) -> Result<(), OutOfMemory>
        requires { IsOpenAt self.old.own marks.now }
        ensures ok { OnOk result (self.new ≡ record self.old { marking = with_marks self.old.marking marks.now }) }
        ensures err { OnErr result (self.new ≡ self.old) }
    {
        self.marking = with_marks(self.alloc, &self.marking, marks)?;
        Ok(())
    }

    // Allows a mark.
    fn allow(&mut self, mark: Mark)
        ensures { self.new ≡ record self.old { marking = without_marks (same_mark mark) self.old.marking } }
    {
        allow(&mut self.marking, mark);
    }

    // Allows all marks of a point.
    fn allow_point(&mut self, pc: PointCode)
        ensures { self.new ≡ record self.old { marking = without_marks (λ mark. point_of mark == pc) self.old.marking } }
    {
        allow_point(&mut self.marking, pc);
    }

    // Whether it is one of the node's subsystems.
    fn is_own(&self, ssn: u8) -> bool
        ensures { result ≡ is_own self.now ssn }
    {
        self.subsystems.as_slice().contains(&ssn)
    }

    // Whether a subsystem of the node is prohibited.
    fn is_down(&self, ssn: u8) -> bool
        ensures { result ≡ is_down self.now ssn }
    {
        self.marking.holds(Mark::Subsystem(self.own, ssn))
    }

    // One status message on a subsystem of the node.
    fn one(&self, to: PointCode, kind: StatusKind, ssn: u8) -> Result<List<Sent>, OutOfMemory>
        ensures { IfOk result (λ sent. sent ≡ sent_to to (status kind ssn self.now.own) ∷ []) }
    {
        let mut sent = List::new(self.alloc);
        push(
            self.alloc,
            &mut sent,
            to,
            &StatusMessage {
                kind,
                ssn,
                pc: self.own,
            },
        )?;
        Ok(sent)
    }

    // The status messages on a subsystem of the node, one to each concerned point that can be reached, in the written order.
    fn told(&self, kind: StatusKind, ssn: u8) -> Result<List<Sent>, OutOfMemory>
        ensures { IfOk result (λ sent. sent ≡ told self.now kind ssn) }
    {
        let status = StatusMessage {
            kind,
            ssn,
            pc: self.own,
        };
        let mut sent = List::new(self.alloc);
        for point in self.concerned.as_slice() {
            push_if_reached(self.alloc, &mut sent, &self.marking, *point, &status)?;
        }
        Ok(sent)
    }

    // The tests of what is prohibited at other points, in the order of marks.
    fn tests(&self) -> Result<List<Sent>, OutOfMemory>
        ensures { IfOk result (λ sent. sent ≡ (row self.now events.Tick).sends) }
    {
        let mut sent = List::new(self.alloc);
        for mark in self.marking.marks() {
            push_test(self.alloc, &mut sent, &self.marking, self.own, mark)?;
        }
        Ok(sent)
    }
}
