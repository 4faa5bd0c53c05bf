//! The items of packets, as they arrive.
ghost use Rattle.std.specs.Prelude.{◌≡◌, ◌∷◌, ◌++◌, [], map, IfOk, OnOk};
ghost use Rattle.capture_file.specs.Views.{captured, octets_of};
ghost use Rattle.capture_trace.specs.declared.kind.Kind.TheVariants.{Fault};
ghost use Rattle.capture_trace.specs.Items.{counted};
ghost use Rattle.capture_trace.specs.Traced.{beginning, ending_of, or_other, standing};
ghost use Rattle.capture_trace.specs.Words.{bad_packet_word, ended, on_packet, skipped};
ghost use Rattle.packet_layers.specs.Layers.{found_in};
ghost use Rattle.packet_layers.specs.Values.{found_as};
ghost use Rattle.watch_items.specs.Captures.{after_packets, all_found, items_of_packets, last_item, of_packet, taken};
ghost use Rattle.watch_items.specs.declared.item.Item.TheVariants.{Note};

use crate::found::take_all;
use crate::item::Item;
use capture_file::{BadPacket, FileFault, Held, Packet};
use capture_trace::{
    Counts, Ending, Kind, Subject, counted, ending_of, one_more, put_bad_packet, put_last_lines,
};
use packet_layers::{Found, found_in};
use sccp_base::{List, Octets, OutOfMemory};
use std::alloc::Global;
use std::marker::Model;
use user_messages::Gatherer;

/// The items of a capture's packets, as they arrive. It keeps counts, and of DATA chunks what `Gatherer` keeps: at most 65,536 keys and 256
/// chunks.
///
/// The only error is want of memory. After it neither the items nor what is kept is specified: both are to be dropped.
#[derive(Drop)]
pub struct PacketItems {
    alloc: Global,
    gatherer: Gatherer,
    counts: Counts,
}

impl Model for PacketItems {
    ghost use Rattle.capture_trace.specs.Traced.{Standing, standing};

    ghost Value = { Standing };

    ghost view = { λ c. standing c.counts c.gatherer };
}

impl PacketItems {
    /// Before the first packet.
    pub fn new(alloc: Global) -> Result<PacketItems, OutOfMemory>
        ensures { IfOk result (λ c. c ≡ beginning) }
    {
        Ok(PacketItems {
            alloc,
            gatherer: Gatherer::new(alloc)?,
            counts: Counts {
                packets: 0,
                messages: 0,
                left: 0,
                repeated: 0,
                others: 0,
                faults: 0,
            },
        })
    }

    /// Takes the next packet of the capture file, or the next block that should have one, and appends its items.
    pub fn take(&mut self, held: &Held<'_>, items: &mut List<Item>) -> Result<(), OutOfMemory>
        ensures now { OnOk result (self.new ≡ (taken self.old (captured held.now)).now) }
        ensures items { OnOk result (items.new ≡ items.old ++ (taken self.old (captured held.now)).items) }
    {
        let counts = one_more(&self.counts)?;
        self.counts = take_held(self.alloc, items, &mut self.gatherer, &counts, held)?;
        Ok(())
    }

    /// Takes packets, and appends their items.
    pub fn take_packets(
        &mut self,
        packets: &[Held<'_>],
        items: &mut List<Item>,
    ) -> Result<(), OutOfMemory>
        ensures now { OnOk result (self.new ≡ after_packets (map captured packets.now) self.old) }
        ensures items { OnOk result (items.new ≡ items.old ++ items_of_packets (map captured packets.now) self.old) }
    {
        for held in packets {
            self.take(held, items)?;
        }
        Ok(())
    }

    /// Takes the end of the capture, with what ended the reading of its file, if anything did, and appends the last item. After it
    /// nothing more is to be taken.
    pub fn finish(
        &mut self,
        fault: Option<FileFault>,
        items: &mut List<Item>,
    ) -> Result<Ending, OutOfMemory>
        ensures ending { IfOk result (λ ending. ending ≡ ending_of fault) }
        ensures items { OnOk result (items.new ≡ items.old ++ last_item self.old fault ∷ []) }
    {
        let waiting = self.gatherer.finish();
        let mut lines = Vec::new(self.alloc);
        put_last_lines(&mut lines, &self.counts, fault, waiting.as_slice())?;
        items.push(Item::Note(Octets::from_vec(lines)))?;
        Ok(ending_of(fault))
    }
}

/// Appends the items of what a packet carries. A packet with nothing in it is one of another protocol.
fn take_or_other(
    alloc: Global,
    items: &mut List<Item>,
    gatherer: &mut Gatherer,
    counts: &Counts,
    found: &[Found<'_>],
) -> Result<Counts, OutOfMemory>
    ensures now { IfOk result (λ after.
        standing after gatherer.new ≡ (all_found (or_other (map found_as found.now)) (standing counts.now gatherer.old)).now) }
    ensures items { OnOk result (items.new ≡ items.old
        ++ (all_found (or_other (map found_as found.now)) (standing counts.now gatherer.old)).items) }
{
    if found.is_empty() {
        return take_all(alloc, items, gatherer, counts, &[Found::Other]);
    }
    take_all(alloc, items, gatherer, counts, found)
}

/// Appends the items of a packet, and gives the counts after it.
fn take_packet(
    alloc: Global,
    items: &mut List<Item>,
    gatherer: &mut Gatherer,
    counts: &Counts,
    packet: &Packet<'_>,
) -> Result<Counts, OutOfMemory>
    ensures now { IfOk result (λ after. standing after gatherer.new ≡ (all_found
        (or_other (found_in packet.now.link packet.now.original (octets_of packet.now.octets))) (standing counts.now gatherer.old)).now) }
    ensures items { OnOk result (items.new ≡ items.old ++ (all_found
        (or_other (found_in packet.now.link packet.now.original (octets_of packet.now.octets))) (standing counts.now gatherer.old)).items) }
{
    let octets = packet.octets.as_slice();
    let found = found_in(alloc, packet.link, packet.original, octets)?;
    take_or_other(alloc, items, gatherer, counts, found.as_slice())
}

/// Appends the item of a block that has no packet, and gives the counts after it.
fn take_bad(
    alloc: Global,
    items: &mut List<Item>,
    counts: &Counts,
    bad: BadPacket,
) -> Result<Counts, OutOfMemory>
    ensures counts { IfOk result (λ after. after ≡ counted Fault counts.now) }
    ensures items { OnOk result (items.new ≡ items.old
        ++ Note (ended (skipped (on_packet counts.now.packets) (bad_packet_word bad))) ∷ []) }
{
    let subject = Subject {
        packet: counts.packets,
        chunk: None,
    };
    let mut line = Vec::new(alloc);
    put_bad_packet(&mut line, subject, bad)?;
    items.push(Item::Note(Octets::from_vec(line)))?;
    counted(Kind::Fault, counts)
}

/// Appends the items of a packet, or of a block that should have one, which is counted already.
#[tactic(auto, unfolding(crate::specs::Captures::of_packet))]
fn take_held(
    alloc: Global,
    items: &mut List<Item>,
    gatherer: &mut Gatherer,
    counts: &Counts,
    held: &Held<'_>,
) -> Result<Counts, OutOfMemory>
    ensures now { IfOk result (λ after.
        standing after gatherer.new ≡ (of_packet (standing counts.now gatherer.old) (captured held.now)).now) }
    ensures items { OnOk result (items.new ≡ items.old ++ (of_packet (standing counts.now gatherer.old) (captured held.now)).items) }
{
    match held {
        Held::OfPacket(packet) => take_packet(alloc, items, gatherer, counts, packet),
        Held::OfBad(bad) => take_bad(alloc, items, counts, *bad),
    }
}
