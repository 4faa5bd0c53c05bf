//! The lines of a capture, as its packets arrive.
ghost use Rattle.std.specs.Prelude.{◌≡◌, [], ◌∷◌, ◌++◌, flat_map, map, IfOk, OnOk};
ghost use Rattle.capture_file.specs.Views.{captured, octets_of};
ghost use Rattle.packet_layers.specs.Layers.{found_in};
ghost use Rattle.packet_layers.specs.Values.{found_as};
ghost use Rattle.capture_trace.specs.declared.kind.Kind.TheVariants.{Fault};
ghost use Rattle.capture_trace.specs.Items.{counted};
ghost use Rattle.capture_trace.specs.Traced.{all_found, alone_line, beginning, counts_at_end, ending_of, fault_lines, last_lines};
ghost use Rattle.capture_trace.specs.Traced.{of_packet, one_more, or_other, standing, taken};
ghost use Rattle.capture_trace.specs.Words.{bad_packet_word, ended, on_packet, skipped, text_of_lines};

use crate::chunks::put_alone;
use crate::counts::{Counts, counted, next};
use crate::ending::{Ending, ending_of};
use crate::found::put_all;
use crate::kind::Kind;
use crate::subject::Subject;
use crate::words::{put_bad_packet, put_end_line, put_file_fault};
use capture_file::{BadPacket, FileFault, Held, Packet};
use packet_layers::{Found, found_in};
use plan_model::Plan;
use sccp_base::OutOfMemory;
use std::alloc::Global;
use std::marker::Model;
use user_messages::{Fragment, Gatherer};

/// The lines of a capture, as its packets arrive. It keeps counts, and of DATA chunks what `Gatherer` keeps: at most 65,536
/// keys and 256 chunks.
///
/// The only error is want of memory. After it neither the text nor what is kept is specified: both are to be dropped.
#[derive(Drop)]
pub struct Capture {
    alloc: Global,
    gatherer: Gatherer,
    counts: Counts,
}

impl Model for Capture {
    ghost use Rattle.capture_trace.specs.Traced.{Standing, standing};

    ghost Value = { Standing };

    ghost view = { λ c. standing c.counts c.gatherer };
}

impl Capture {
    /// Before the first packet.
    pub fn new(alloc: Global) -> Result<Capture, OutOfMemory>
        ensures { IfOk result (λ capture. capture ≡ beginning) }
    {
        Ok(Capture {
            alloc,
            gatherer: Gatherer::new(alloc)?,
            counts: Counts {
                packets: 0,
                messages: 0,
                left: 0,
                repeated: 0,
                others: 0,
                faults: 0,
            },
        })
    }

    /// Takes the next packet of the capture file, or the next block that should have one, and appends its lines.
    pub fn take(
        &mut self,
        plan: &Plan,
        held: &Held<'_>,
        text: &mut Vec<u8>,
    ) -> Result<(), OutOfMemory>
        ensures now { OnOk result (self.new ≡ (taken plan.now self.old (captured held.now)).now) }
        ensures text { OnOk result (text.new.items ≡ text.old.items ++ text_of_lines (taken plan.now self.old (captured held.now)).lines) }
    {
        let counts = one_more(&self.counts)?;
        self.counts = take_held(self.alloc, text, plan, &mut self.gatherer, &counts, held)?;
        Ok(())
    }

    /// Takes the end of the capture, with what ended the reading of its file, if anything did. It appends the last lines: what
    /// ended the file, each chunk that still waits, and the counts. After it nothing more is to be taken.
    pub fn finish(
        &mut self,
        fault: Option<FileFault>,
        text: &mut Vec<u8>,
    ) -> Result<Ending, OutOfMemory>
        ensures ending { IfOk result (λ ending. ending ≡ ending_of fault) }
        ensures text { OnOk result (text.new.items ≡ text.old.items
            ++ text_of_lines (last_lines self.old.counts fault self.old.gathered.waiting)) }
    {
        let waiting = self.gatherer.finish();
        put_last_lines(text, &self.counts, fault, waiting.as_slice())?;
        Ok(ending_of(fault))
    }
}

/// The counts with one more packet.
pub fn one_more(counts: &Counts) -> Result<Counts, OutOfMemory>
    ensures { IfOk result (λ after. after ≡ one_more counts.now) }
{
    Ok(Counts {
        packets: next(counts.packets)?,
        ..*counts
    })
}

/// Appends the lines of what a packet carries. A packet with nothing in it is one of another protocol.
fn put_or_other(
    alloc: Global,
    text: &mut Vec<u8>,
    plan: &Plan,
    gatherer: &mut Gatherer,
    counts: &Counts,
    found: &[Found<'_>],
) -> Result<Counts, OutOfMemory>
    ensures now { IfOk result (λ after.
        standing after gatherer.new ≡ (all_found plan.now (or_other (map found_as found.now)) (standing counts.now gatherer.old)).now) }
    ensures text { OnOk result (text.new.items ≡ text.old.items
        ++ text_of_lines (all_found plan.now (or_other (map found_as found.now)) (standing counts.now gatherer.old)).lines) }
{
    if found.is_empty() {
        return put_all(alloc, text, plan, gatherer, counts, &[Found::Other]);
    }
    put_all(alloc, text, plan, gatherer, counts, found)
}

/// Appends the lines of a packet, and gives the counts after it.
fn take_packet(
    alloc: Global,
    text: &mut Vec<u8>,
    plan: &Plan,
    gatherer: &mut Gatherer,
    counts: &Counts,
    packet: &Packet<'_>,
) -> Result<Counts, OutOfMemory>
    ensures now { IfOk result (λ after. standing after gatherer.new ≡ (all_found plan.now
        (or_other (found_in packet.now.link packet.now.original (octets_of packet.now.octets))) (standing counts.now gatherer.old)).now) }
    ensures text { OnOk result (text.new.items ≡ text.old.items ++ text_of_lines (all_found plan.now
        (or_other (found_in packet.now.link packet.now.original (octets_of packet.now.octets))) (standing counts.now gatherer.old)).lines) }
{
    let octets = packet.octets.as_slice();
    let found = found_in(alloc, packet.link, packet.original, octets)?;
    put_or_other(alloc, text, plan, gatherer, counts, found.as_slice())
}

/// Appends the line of a block that has no packet, and gives the counts after it.
#[tactic(auto, unfolding(crate::specs::Words::text_of_lines))]
fn take_bad(text: &mut Vec<u8>, counts: &Counts, bad: BadPacket) -> Result<Counts, OutOfMemory>
    ensures counts { IfOk result (λ after. after ≡ counted Fault counts.now) }
    ensures text { OnOk result (text.new.items ≡ text.old.items
        ++ text_of_lines (skipped (on_packet counts.now.packets) (bad_packet_word bad) ∷ [])) }
{
    let subject = Subject {
        packet: counts.packets,
        chunk: None,
    };
    put_bad_packet(text, subject, bad)?;
    counted(Kind::Fault, counts)
}

/// Appends the lines of a packet, or of a block that should have one, which is counted already.
#[tactic(auto, unfolding(crate::specs::Traced::of_packet))]
fn take_held(
    alloc: Global,
    text: &mut Vec<u8>,
    plan: &Plan,
    gatherer: &mut Gatherer,
    counts: &Counts,
    held: &Held<'_>,
) -> Result<Counts, OutOfMemory>
    ensures now { IfOk result (λ after.
        standing after gatherer.new ≡ (of_packet plan.now (standing counts.now gatherer.old) (captured held.now)).now) }
    ensures text { OnOk result (text.new.items ≡ text.old.items
        ++ text_of_lines (of_packet plan.now (standing counts.now gatherer.old) (captured held.now)).lines) }
{
    match held {
        Held::OfPacket(packet) => take_packet(alloc, text, plan, gatherer, counts, packet),
        Held::OfBad(bad) => take_bad(text, counts, *bad),
    }
}

/// Appends the line of what ended the file early, if anything did.
#[tactic(auto, unfolding(crate::specs::Words::text_of_lines))]
fn put_fault_line(text: &mut Vec<u8>, fault: Option<FileFault>) -> Result<(), OutOfMemory>
    ensures { OnOk result (text.new.items ≡ text.old.items ++ text_of_lines (fault_lines fault)) }
{
    match fault {
        Some(fault) => put_file_fault(text, fault),
        None => Ok(()),
    }
}

/// Appends the lines of the chunks that still wait.
fn put_alone_lines(text: &mut Vec<u8>, waiting: &[Fragment]) -> Result<(), OutOfMemory>
    ensures { OnOk result (text.new.items ≡ text.old.items ++ flat_map (λ r. ended (alone_line r.place)) waiting.now) }
{
    for fragment in waiting {
        put_alone(text, fragment.place())?;
    }
    Ok(())
}

/// The counts at the end of a capture. Each chunk that still waits is one more fault.
fn counts_at_end(
    counts: &Counts,
    fault: Option<FileFault>,
    waiting: usize,
) -> Result<Counts, OutOfMemory>
    ensures { IfOk result (λ after. after ≡ counts_at_end counts.now fault waiting) }
{
    let faults = match fault {
        Some(_) => next(counts.faults)?,
        None => counts.faults,
    };
    match faults.checked_add(waiting as u64) {
        Some(faults) => Ok(Counts { faults, ..*counts }),
        None => Err(OutOfMemory),
    }
}

/// Appends the last lines, of which those of chunks that still wait are in the order in which these arrived.
pub fn put_last_lines(
    text: &mut Vec<u8>,
    counts: &Counts,
    fault: Option<FileFault>,
    waiting: &[Fragment],
) -> Result<(), OutOfMemory>
    ensures { OnOk result (text.new.items ≡ text.old.items ++ text_of_lines (last_lines counts.now fault waiting.now)) }
{
    put_fault_line(text, fault)?;
    put_alone_lines(text, waiting)?;
    let counts = counts_at_end(counts, fault, waiting.len())?;
    put_end_line(text, &counts)?;
    Ok(())
}
