//! A running world: its relays, its links and its history, and all calls of the layer above.
ghost use Rattle.std.specs.Prelude.{◌≡◌, ◌↔◌, ◌<◌, [], ◌∷◌, ◌++◌, false, true, None, Some, List, All, map, length, position, ⊤, IfOk};
ghost use Rattle.std.specs.Prelude.{IfErr, IfNone, IfSome, OnOk, OnErr, option_map};
ghost use Rattle.std.specs.Bool.{MatchBool};
ghost use Rattle.std.specs.List.{range_with_len};
ghost use Rattle.sccp_base.specs.Answers.{Answers};
ghost use Rattle.sccp_message.specs.Written.{message_octets, IsMessage, Sound};
ghost use Rattle.plan_model.specs.Network.{has_point};
ghost use Rattle.sccp_couple.specs.Sending.{HasShortParts};
ghost use Rattle.couple_chain.specs.declared.happening.Happening.{Happening as Event};
ghost use Rattle.couple_chain.specs.declared.happening.Happening.TheVariants.{Offers, Delivers};
ghost use Rattle.couple_chain.specs.Fit.{IsFit};
ghost use Rattle.couple_chain.specs.Relays.{first_relay};
ghost use Rattle.couple_chain.specs.World.{is_node, name_of, uses_again, offer_fault, delivery, IsNextLink};
ghost use Rattle.chain_world.specs.Kept.{kept, network_of, world_of};
ghost use Rattle.chain_world.specs.Offering.{as_read, fault_of, fault_of_read, early_fault, answer_by, is_memory};
ghost use Rattle.couple_chain.specs.Line.{line, is_fresh, IsFresh, IsSettled, IsInOrder, IsThrough};
ghost use Rattle.chain_world.specs.Staged.{told_line};
ghost use Rattle.chain_world.specs.Running.{oldest_of, sections_of};

use crate::answering::take_in;
use crate::asking::{are_fresh, are_idle, least, sections_in};
use crate::line::Line;
use crate::lines::line_along;
use crate::link::{Link, oldest, pass, put};
use crate::offering::{is_used, name_of, read, read_again};
use crate::stage::{first_stage, follow};
use couple_chain::{Delivered, Happening, OfferFault, Relay};
use plan_model::Plan;
use sccp_base::{Octets, OutOfMemory, PointCode, Reference};
use sccp_couple::{is_connection, vouch_short};
use sccp_message::Message as Signal;
use sccp_scrc::octets_of;
use std::alloc::Global;
use std::marker::Model;

/// The relays of a plan, the ends around them, and the links between their points. Every relay couples, and nothing is
/// prohibited.
///
/// It keeps its history: the list of its accepted offers and of its deliveries. Contracts see it as its plan and that list.
/// Its relays and links have what the history leads to.
#[derive(Drop)]
pub struct World {
    alloc: Global,
    plan: Plan,
    relays: Vec<Relay>,
    links: Vec<Link>,
    history: Vec<Happening>,
}

impl Model for World {
    ghost use Rattle.chain_world.specs.Kept.{Kept, kept};
    ghost use Rattle.chain_world.specs.Running.{IsWorld};

    ghost Value = { Kept };

    ghost view = { λ w. kept w.plan w.history.items };

    ghost invariant = { λ w. IsWorld w.plan w.relays.items w.links.items w.history.items };
}

/// Adds an event to the history.
fn note(history: &mut Vec<Happening>, event: Happening) -> Result<(), OutOfMemory>
    ensures ok { OnOk result (history.new.items ≡ history.old.items ++ event ∷ []) }
    ensures err { OnErr result (history.new.items ≡ history.old.items) }
{
    match history.push(event) {
        Ok(()) => Ok(()),
        Err(refused) => {
            drop(refused);
            Err(OutOfMemory)
        }
    }
}

/// Takes the last event back.
fn take_back(history: &mut Vec<Happening>)
    ensures { (before : List Event) (last : Event) → history.old.items ≡ before ++ last ∷ [] → history.new.items ≡ before }
{
    if let Some(Happening::Offers { message, .. }) = history.pop() {
        drop(message);
    }
}

/// The relays at the first `count` places, without sections.
fn relays_of(alloc: Global, count: u8) -> Result<Vec<Relay>, OutOfMemory>
    ensures { IfOk result (λ relays. relays.items ≡ map first_relay (range_with_len 0 count)) }
{
    let mut relays = Vec::new(alloc);
    for node in 0..count {
        relays.push(Relay::new(alloc, node))?;
    }
    Ok(relays)
}

impl World {
    /// A world in which nothing has happened yet. The only error is lack of memory.
    pub fn new(alloc: Global, plan: Plan) -> Result<World, OutOfMemory>
        ensures { IfOk result (λ w. w ≡ kept plan []) }
    {
        let count = plan.nodes().as_slice().len() as u8;
        let relays = relays_of(alloc, count)?;
        Ok(World {
            alloc,
            plan,
            relays,
            links: Vec::new(alloc),
            history: Vec::new(alloc),
        })
    }

    /// The plan whose nodes are the relays.
    pub fn plan(&self) -> &Plan
        ensures { result.now ≡ self.now.plan }
    {
        &self.plan
    }

    /// Whether a point is a relay's.
    #[tactic(auto, using(crate::proofs::Nodes::node_by_place))]
    fn is_node(&self, point: PointCode) -> bool
        ensures { result ≡ is_node (network_of self.now.plan) point }
    {
        self.plan.node_at(point).is_some()
    }

    /// Whether a message of an end has the source local reference of an earlier CR or CC from this end.
    fn uses_again(&self, from: PointCode, message: &Signal) -> bool
        requires { is_node (network_of self.now.plan) from ≡ false }
        ensures { result ≡ uses_again (network_of self.now.plan) (world_of self.now) from (name_of message.now) }
    {
        match name_of(message) {
            None => false,
            Some(own) => is_used(self.history.as_slice(), from, own),
        }
    }

    /// The first test that an offer fails, of all tests but the last.
    fn early_fault(&self, from: PointCode, to: PointCode, message: &Signal) -> Option<OfferFault>
        ensures { result ≡ early_fault (network_of self.now.plan) (world_of self.now) from to message.now }
    {
        if self.is_node(from) {
            return Some(OfferFault::NotAnEnd);
        }
        if !self.is_node(to) {
            return Some(OfferFault::NotANode);
        }
        if !is_connection(message) {
            return Some(OfferFault::Connectionless);
        }
        if self.uses_again(from, message) {
            return Some(OfferFault::UsedReference);
        }
        None
    }

    /// The oldest message that a link has not yet delivered.
    fn oldest(&self, from: PointCode, to: PointCode) -> Result<Option<Signal>, OutOfMemory>
        ensures value { IfOk result (λ m. m ≡ oldest_of ((world_of self.now).waiting from to)) }
        ensures short { IfOk result (λ m. IfSome m HasShortParts) }
    {
        match oldest(self.links.as_slice(), from, to) {
            None => Ok(None),
            Some(octets) => read(self.alloc, octets.as_slice()),
        }
    }

    /// Accepts an offer that passed every test: it is put on its link and in the history.
    fn accept(
        &mut self,
        from: PointCode,
        to: PointCode,
        message: Signal,
        octets: Octets,
    ) -> Result<(), OutOfMemory>
        requires accepted { offer_fault (network_of self.old.plan) (world_of self.old) from to message ≡ None }
        requires fit { IsFit message }
        requires written { octets ≡ message_octets message }
        ensures ok { OnOk result (self.new ≡ kept self.old.plan (self.old.history ++ Offers from to message ∷ [])) }
        ensures err { OnErr result (self.new ≡ self.old) }
    {
        note(&mut self.history, Happening::Offers { from, to, message })?;
        match put(self.alloc, &mut self.links, from, to, octets) {
            Ok(()) => Ok(()),
            Err(fault) => {
                take_back(&mut self.history);
                Err(fault)
            }
        }
    }

    /// The octets of a message that was read, if an offer of it passes every test; otherwise the first test that it fails.
    fn tested(&self, from: PointCode, to: PointCode, read: &Signal) -> Result<Octets, OfferFault>
        requires sound { Sound read.now }
        requires is_message { IsMessage read.now }
        ensures passed { OnOk result (offer_fault (network_of self.now.plan) (world_of self.now) from to read.now ≡ None) }
        ensures octets { IfOk result (λ octets. octets ≡ message_octets read.now) }
        ensures fit { OnOk result (IsFit read.now) }
        ensures fault { IfErr result (λ fault. MatchBool (is_memory fault) ⊤
            (offer_fault (network_of self.now.plan) (world_of self.now) from to read.now ≡ Some fault)) }
    {
        if let Some(fault) = self.early_fault(from, to, read) {
            return Err(fault);
        }
        match octets_of(self.alloc, read)? {
            None => Err(OfferFault::NotWritable),
            Some(octets) => {
                vouch_short(octets.as_slice(), read);
                Ok(octets)
            }
        }
    }

    /// An offer of a message that was read from octets.
    fn offer_read(&mut self, from: PointCode, to: PointCode, read: Signal) -> Result<(), OfferFault>
        requires sound { Sound read }
        requires is_message { IsMessage read }
        ensures answer { Answers is_memory (λ u. u) result
            (answer_by (offer_fault (network_of self.old.plan) (world_of self.old) from to read)) }
        ensures ok { OnOk result (self.new ≡ kept self.old.plan (self.old.history ++ Offers from to read ∷ [])) }
        ensures err { OnErr result (self.new ≡ self.old) }
    {
        match self.tested(from, to, &read) {
            Ok(octets) => {
                self.accept(from, to, read, octets)?;
                Ok(())
            }
            Err(fault) => {
                drop(read);
                Err(fault)
            }
        }
    }

    /// The first test that an offer fails, if its message cannot be written, or would not read as a message.
    fn fault_unread(&self, from: PointCode, to: PointCode, message: &Signal) -> OfferFault
        ensures { fault_of_read (network_of self.now.plan) (world_of self.now) from to message.now None ≡ Some result }
    {
        match self.early_fault(from, to, message) {
            Some(fault) => fault,
            None => OfferFault::NotWritable,
        }
    }

    /// An end puts a message on its link to a relay.
    ///
    /// The faults in the order of testing are: `NotAnEnd` if the message is from a relay's point, `NotANode` if it goes to no
    /// relay, and `Connectionless`. Then `UsedReference` if it is a CR or CC whose source local reference an earlier accepted
    /// one of this end had. The last is `NotWritable` if it cannot be written or does not read again. Lack of memory is
    /// `OutOfMemory`. Each fault leaves all as it was.
    ///
    /// What goes on the link is what the octets say. That is the message itself, unless it has an address that no octets can
    /// express.
    pub fn offer(
        &mut self,
        from: PointCode,
        to: PointCode,
        message: &Signal,
    ) -> Result<(), OfferFault>
        ensures answer { Answers is_memory (λ u. u) result
            (answer_by (fault_of (network_of self.old.plan) (world_of self.old) from to message.now)) }
        ensures ok { OnOk result (self.new ≡ kept self.old.plan (self.old.history ++ Offers from to (as_read message.now) ∷ [])) }
        ensures err { OnErr result (self.new ≡ self.old) }
    {
        match read_again(self.alloc, message)? {
            Some(read) => self.offer_read(from, to, read),
            None => Err(self.fault_unread(from, to, message)),
        }
    }

    /// A delivery of a link that holds no message.
    fn deliver_nothing(&mut self, from: PointCode, to: PointCode) -> Result<Delivered, OutOfMemory>
        requires { (world_of self.old).waiting from to ≡ [] }
        ensures answer { IfOk result (λ d. d ≡ delivery (network_of self.old.plan) (world_of self.old) from to) }
        ensures ok { OnOk result (self.new ≡ kept self.old.plan (self.old.history ++ Delivers from to ∷ [])) }
        ensures err { OnErr result (self.new ≡ self.old) }
    {
        note(&mut self.history, Happening::Delivers { from, to })?;
        Ok(Delivered::Nothing)
    }

    /// Hands the oldest message of a link to an end.
    fn hand_out(
        &mut self,
        from: PointCode,
        to: PointCode,
        message: Signal,
    ) -> Result<Delivered, OutOfMemory>
        requires oldest { oldest_of ((world_of self.old).waiting from to) ≡ Some message }
        requires outer { is_node (network_of self.old.plan) to ≡ false }
        ensures answer { IfOk result (λ d. d ≡ delivery (network_of self.old.plan) (world_of self.old) from to) }
        ensures ok { OnOk result (self.new ≡ kept self.old.plan (self.old.history ++ Delivers from to ∷ [])) }
        ensures err { OnErr result (self.new ≡ self.old) }
    {
        match note(&mut self.history, Happening::Delivers { from, to }) {
            Ok(()) => {
                pass(&mut self.links, from, to);
                Ok(Delivered::Out(message))
            }
            Err(fault) => {
                drop(message);
                Err(fault)
            }
        }
    }

    /// A relay takes the oldest message of a link, and what it sends is put on its links.
    fn handle(
        &mut self,
        node: u8,
        from: PointCode,
        to: PointCode,
        message: &Signal,
    ) -> Result<Delivered, OutOfMemory>
        requires oldest { oldest_of ((world_of self.old).waiting from to) ≡ Some message.now }
        requires node { position (has_point to) self.old.plan.nodes ≡ Some node }
        requires short { HasShortParts message.now }
        ensures answer { IfOk result (λ d. d ≡ delivery (network_of self.old.plan) (world_of self.old) from to) }
        ensures ok { OnOk result (self.new ≡ kept self.old.plan (self.old.history ++ Delivers from to ∷ [])) }
        ensures err { OnErr result (self.new ≡ self.old) }
    {
        let place = usize::from(node);
        note(&mut self.history, Happening::Delivers { from, to })?;
        match take_in(
            self.alloc,
            &self.plan,
            &mut self.relays[place],
            &mut self.links,
            from,
            to,
            message,
        ) {
            Ok(()) => {
                pass(&mut self.links, from, to);
                Ok(Delivered::Handled)
            }
            Err(fault) => {
                take_back(&mut self.history);
                Err(fault)
            }
        }
    }

    /// A link delivers its oldest message. The answer is `Nothing` if it holds none, and `Handled` if a relay takes the
    /// message; what its coupling sends is then on its links. It is `Out` if an end is handed the message. The only error is
    /// lack of memory; it leaves all as it was.
    pub fn deliver(&mut self, from: PointCode, to: PointCode) -> Result<Delivered, OutOfMemory>
        ensures answer { IfOk result (λ d. d ≡ delivery (network_of self.old.plan) (world_of self.old) from to) }
        ensures ok { OnOk result (self.new ≡ kept self.old.plan (self.old.history ++ Delivers from to ∷ [])) }
        ensures err { OnErr result (self.new ≡ self.old) }
    {
        match self.oldest(from, to)? {
            None => self.deliver_nothing(from, to),
            Some(message) => match self.plan.node_at(to) {
                None => self.hand_out(from, to, message),
                Some(node) => {
                    let handled = self.handle(node, from, to, &message);
                    drop(message);
                    handled
                }
            },
        }
    }

    /// Whether no relay gave one own reference to two sections. It takes no memory.
    pub fn fresh(&self) -> bool
        ensures { result ≡ is_fresh (network_of self.now.plan) (world_of self.now) }
    {
        are_fresh(self.relays.as_slice())
    }

    /// Whether no link holds a message. It takes no memory.
    pub fn settled(&self) -> bool
        ensures { (result ≡ true) ↔ IsSettled (world_of self.now) }
    {
        are_idle(self.links.as_slice())
    }

    /// The number of connection sections of all relays together. It takes no memory.
    pub fn sections(&self) -> u32
        ensures { result ≡ sections_of (network_of self.now.plan) (world_of self.now) }
    {
        sections_in(self.relays.as_slice())
    }

    /// The link that is to deliver next: of the links that hold a message, the least by its first point and then its second.
    /// `None` if no link holds one. It takes no memory.
    pub fn next(&self) -> Option<(PointCode, PointCode)>
        ensures some { IfSome result (λ l. IsNextLink (world_of self.now) l.0 l.1) }
        ensures none { IfNone result (IsSettled (world_of self.now)) }
        ensures settled { IsSettled (world_of self.now) → result ≡ None }
    {
        least(self.links.as_slice())
    }

    /// The line of a connection from an end's point and the local reference that the end gave. It is `None` if the point is a
    /// relay's, if a pair on the way is missing or not established, or after 15 pairs without an end. The only error is lack
    /// of memory.
    ///
    /// If no relay gave one own reference twice, what came out of the line is the beginning of what went in, both ways. If
    /// also no link holds a message, it is the whole.
    pub fn line(&self, point: PointCode, reference: Reference) -> Result<Option<Line>, OutOfMemory>
        ensures line { IfOk result (λ l. option_map (told_line self.now.plan) l
            ≡ line (network_of self.now.plan) (world_of self.now) point reference) }
        ensures inside { IfOk result (λ l. IfSome l (λ x. All (λ node. node < length self.now.plan.nodes) x.path)) }
        ensures order { IsFresh (network_of self.now.plan) (world_of self.now)
            → IfOk result (λ l. IfSome l (λ x. IsInOrder (told_line self.now.plan x))) }
        ensures all { IsFresh (network_of self.now.plan) (world_of self.now) → IsSettled (world_of self.now)
            → IfOk result (λ l. IfSome l (λ x. IsThrough (told_line self.now.plan x))) }
    {
        if self.is_node(point) {
            return Ok(None);
        }
        let relays = self.relays.as_slice();
        let Some(first) = first_stage(relays, point, reference) else {
            return Ok(None);
        };
        let Some(path) = follow(self.alloc, &self.plan, relays, 15, &first)? else {
            return Ok(None);
        };
        let links = self.links.as_slice();
        line_along(
            self.alloc,
            &self.plan,
            relays,
            links,
            point,
            path.as_slice(),
        )
    }
}
