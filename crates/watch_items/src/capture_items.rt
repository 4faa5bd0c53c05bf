//! The items of a capture file, as its octets arrive.
ghost use Rattle.std.specs.Prelude.{◌≡◌, ◌++◌, [], List, ℕ, true, IfOk, OnOk};
ghost use Rattle.watch_items.specs.Captures.{ahead, heard};
ghost use Rattle.watch_items.specs.Steps.{Feeds};

use crate::item::Item;
use crate::packet_items::PacketItems;
use capture_file::Reader;
use capture_trace::Ending;
use sccp_base::{List, OutOfMemory};
use std::alloc::Global;
use std::marker::Model;

/// The items of a capture file, as its octets arrive. Beside the octets of an unfinished packet it keeps counts, the keys of at most
/// 65,536 DATA chunks, and at most 256 chunks that wait for others of their user message.
///
/// The only error is want of memory. After it neither the items nor what is kept is specified: both are to be dropped.
#[derive(Drop)]
pub struct CaptureItems {
    reader: Reader,
    packets: PacketItems,
}

impl Model for CaptureItems {
    ghost use Rattle.watch_items.specs.Captures.{State};

    ghost Value = { State };

    ghost view = { λ c. record { reader = c.reader; now = c.packets } };
}

impl CaptureItems {
    /// Before the first octet.
    pub fn new(alloc: Global) -> Result<CaptureItems, OutOfMemory>
        ensures { IfOk result (λ c. (octets : List ℕ) → ahead c octets ≡ heard octets) }
    {
        Ok(CaptureItems {
            reader: Reader::new(alloc),
            packets: PacketItems::new(alloc)?,
        })
    }

    /// Takes the next octets of the file, and appends the items of the packets that they complete. The answer is whether the file is
    /// damaged: then its other octets do not count, and need not be taken.
    pub fn feed(&mut self, piece: &[u8], items: &mut List<Item>) -> Result<bool, OutOfMemory>
        ensures feeds { OnOk result (Feeds self.old piece.now items.old items.new self.new) }
        ensures stops { IfOk result (λ stops. stops ≡ true → (rest : List ℕ) → ahead self.new rest ≡ ahead self.new []) }
    {
        let fed = self.reader.feed(piece)?;
        let stops = fed.fault.is_some();
        let taken = self.packets.take_packets(fed.packets.as_slice(), items);
        drop(fed);
        taken?;
        Ok(stops)
    }

    /// Takes the end of the file, and appends the last item. After it nothing more is to be taken.
    pub fn finish(&mut self, items: &mut List<Item>) -> Result<Ending, OutOfMemory>
        ensures ending { IfOk result (λ ending. ending ≡ (ahead self.old []).ending) }
        ensures items { OnOk result (items.new ≡ items.old ++ (ahead self.old []).items) }
    {
        let fault = self.reader.finish();
        self.packets.finish(fault, items)
    }
}
