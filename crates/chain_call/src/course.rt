//! The state of a connection while it is made, used and released, and the deliveries between its steps.
ghost use Rattle.std.specs.Prelude.{◌≡◌, ◌+◌, ◌++◌, IfOk, OnOk, Some, None, if◌then◌else◌, option_map};
ghost use Rattle.chain_world.specs.Kept.{kept, network_of, world_of};
ghost use Rattle.chain_world.specs.Offering.{fault_of, is_memory};
ghost use Rattle.chain_world.specs.Running.{sections_of};
ghost use Rattle.couple_chain.specs.Line.{line};
ghost use Rattle.chain_call.specs.Course.{beginning, world_at};
ghost use Rattle.chain_world.specs.Staged.{told_line};
ghost use Rattle.chain_call.specs.Notes.{release_of};
ghost use Rattle.chain_call.specs.Steps.{offer_by, offered, answered, handed_out, come_out, delivered, is_spent, next_of, settled};

use crate::handed::Handed;
use crate::note::Note;
use chain_world::{Line, World};
use couple_chain::{Delivered, OfferFault};
use plan_model::Plan;
use sccp_base::{OutOfMemory, PointCode, Reference};
use sccp_message::Message;
use std::alloc::Global;
use std::marker::Model;

/// The number of deliveries that may be made for each message that is offered.
const DELIVERIES_EACH: u64 = 64;

/// The course of a connection: its world, what ends were handed, and the numbers of messages offered and delivered.
#[derive(Drop)]
pub(crate) struct Course {
    alloc: Global,
    world: World,
    handed: Vec<Handed>,
    offers: u64,
    deliveries: u64,
}

impl Model for Course {
    ghost use Rattle.chain_call.specs.Course as spec;

    ghost Value = { spec.Course };

    ghost view = { λ c. spec.course c.world c.handed.items c.offers c.deliveries };
}

impl Course {
    /// A connection that is about to begin in this world.
    pub(crate) fn new(alloc: Global, world: World) -> Course
        ensures { result ≡ beginning world }
    {
        Course {
            alloc,
            world,
            handed: Vec::new(alloc),
            offers: 0,
            deliveries: 0,
        }
    }

    /// The plan of its world.
    pub(crate) fn plan(&self) -> &Plan
        ensures { result.now ≡ self.now.plan }
    {
        self.world.plan()
    }

    /// What ends were handed so far, in order.
    pub(crate) fn handed(&self) -> &[Handed]
        ensures { result.now ≡ self.now.handed }
    {
        self.handed.as_slice()
    }

    /// The number of connection sections of all relays together.
    pub(crate) fn sections(&self) -> u32
        ensures { result ≡ sections_of (network_of self.now.plan) (world_at self.now) }
    {
        self.world.sections()
    }

    /// The line from an end's point and the reference that it gave.
    pub(crate) fn line(
        &self,
        point: PointCode,
        reference: Reference,
    ) -> Result<Option<Line>, OutOfMemory>
        ensures { IfOk result (λ l. option_map (told_line self.now.plan) l
            ≡ line (network_of self.now.plan) (world_at self.now) point reference) }
    {
        self.world.line(point, reference)
    }

    /// An end offers a message, which stays the caller's, to a relay. An offer that is refused changes nothing.
    #[tactic(auto, unfolding(crate::specs::Steps::offered))]
    fn offer_lent(
        &mut self,
        from: PointCode,
        to: PointCode,
        message: &Message,
    ) -> Result<(), OutOfMemory>
        ensures { OnOk result (self.new ≡ offered from to message.now self.old) }
    {
        let offers = one_more(self.offers)?;
        put(&mut self.world, from, to, message)?;
        self.offers = offers;
        Ok(())
    }

    /// An end offers a message to a relay. An offer that is refused changes nothing.
    pub(crate) fn offer(
        &mut self,
        from: PointCode,
        to: PointCode,
        message: Message,
    ) -> Result<(), OutOfMemory>
        ensures { OnOk result (self.new ≡ offered from to message self.old) }
    {
        let offered = self.offer_lent(from, to, &message);
        drop(message);
        offered
    }

    /// An end answers a release, if it was handed one.
    fn answer(
        &mut self,
        from: PointCode,
        to: PointCode,
        release: Option<(Reference, Reference)>,
    ) -> Result<(), OutOfMemory>
        ensures { OnOk result (self.new ≡ answered from to release self.old) }
    {
        match release {
            Some((dlr, slr)) => { self.offer(to, from, Message::Rlc { dlr: slr, slr: dlr }) }
            None => Ok(()),
        }
    }

    /// An end is handed a message by a relay, and answers it if it is a release.
    #[tactic(auto, unfolding(crate::specs::Steps::handed_out))]
    fn hand_out(&mut self, from: PointCode, to: PointCode, note: Note) -> Result<(), OutOfMemory>
        ensures { OnOk result (self.new ≡ handed_out from to note self.old) }
    {
        let release = release_of(&note);
        self.handed.push(Handed { from, to, note })?;
        self.answer(from, to, release)
    }

    /// Hands a delivered message to its end, if the delivery leads to one.
    fn come_out(
        &mut self,
        from: PointCode,
        to: PointCode,
        delivered: &Delivered,
    ) -> Result<(), OutOfMemory>
        ensures { OnOk result (self.new ≡ come_out from to delivered.now self.old) }
    {
        match delivered {
            Delivered::Nothing => Ok(()),
            Delivered::Handled => Ok(()),
            Delivered::Out(message) => {
                let note = Note::of(self.alloc, message)?;
                self.hand_out(from, to, note)
            }
        }
    }

    /// Has a link deliver its oldest message.
    #[tactic(auto, unfolding(crate::specs::Steps::delivered))]
    fn deliver(&mut self, from: PointCode, to: PointCode) -> Result<(), OutOfMemory>
        ensures { OnOk result (self.new ≡ delivered from to self.old) }
    {
        let deliveries = one_more(self.deliveries)?;
        let delivered = self.world.deliver(from, to)?;
        self.deliveries = deliveries;
        let come = self.come_out(from, to, &delivered);
        drop(delivered);
        come
    }

    /// The link that is to deliver next.
    fn next(&self) -> Option<(PointCode, PointCode)>
        ensures { result ≡ next_of self.now }
    {
        self.world.next()
    }

    /// Whether all deliveries were made that are allowed for the messages offered.
    fn is_spent(&self) -> bool
        ensures { result ≡ is_spent self.now }
    {
        self.offers <= self.deliveries / DELIVERIES_EACH
    }

    /// Has links deliver until none holds a message. The result is false if all deliveries that are allowed were made, and a
    /// link still holds a message.
    pub(crate) fn settle(&mut self) -> Result<bool, OutOfMemory>
        ensures { IfOk result (λ done. settled self.old ≡ if done then Some self.new else None) }
    {
        for _turn in 0..u64::MAX {
            let Some((from, to)) = self.next() else {
                return Ok(true);
            };
            if self.is_spent() {
                return Ok(false);
            }
            self.deliver(from, to)?;
        }
        Ok(false)
    }
}

/// One more. A count past its type's end is answered as want of memory, but no run is long enough for that many offers or
/// deliveries.
fn one_more(count: u64) -> Result<u64, OutOfMemory>
    ensures { IfOk result (λ more. more ≡ count + 1) }
{
    match count.checked_add(1) {
        Some(more) => Ok(more),
        None => Err(OutOfMemory),
    }
}

/// Whether a fault is lack of memory.
fn is_memory(fault: OfferFault) -> bool
    ensures { result ≡ is_memory fault }
{
    matches!(fault, OfferFault::OutOfMemory)
}

/// The destination and source reference of a release.
fn release_of(note: &Note) -> Option<(Reference, Reference)>
    ensures { result ≡ release_of note.now }
{
    match note {
        Note::Release { dlr, slr } => Some((*dlr, *slr)),
        _ => None,
    }
}

/// An end offers a message to a relay of a world. An offer that is refused changes nothing.
fn put(
    world: &mut World,
    from: PointCode,
    to: PointCode,
    message: &Message,
) -> Result<(), OutOfMemory>
    ensures { OnOk result (world.new ≡ kept world.old.plan
        (world.old.history ++ offer_by (fault_of (network_of world.old.plan)
        (world_of world.old) from to message.now) from to message.now)) }
{
    match world.offer(from, to, message) {
        Ok(()) => Ok(()),
        Err(fault) => {
            if is_memory(fault) {
                return Err(OutOfMemory);
            }
            Ok(())
        }
    }
}
