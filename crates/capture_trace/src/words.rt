//! Lines that are no message. Each begins with `#`, so a trace skips it.
ghost use Rattle.std.specs.Prelude.{◌≡◌, ◌++◌, codes, decimal, OnOk};
ghost use Rattle.hex.specs.Hex.{encode_upper};
ghost use Rattle.capture_trace.specs.Words.{bad_packet_word, chunk_fault_word, chunk_head, end_line, ended, fault_words, file_fault_line};
ghost use Rattle.capture_trace.specs.Words.{head};
ghost use Rattle.capture_trace.specs.Words.{layer_word, named_count, octet_line, skipped};

use crate::counts::Counts;
use crate::subject::Subject;
use capture_file::{BadPacket, Damage, FileFault};
use packet_layers::{ChunkFault, Fault, Layer};
use sccp_base::OutOfMemory;
use std::alloc::Global;

/// Appends words unchanged.
pub fn put(text: &mut Vec<u8>, words: &[u8]) -> Result<(), OutOfMemory>
    ensures { OnOk result (text.new.items ≡ text.old.items ++ words.now) }
{
    text.extend_from_slice(words)?;
    Ok(())
}

/// Appends a number in decimal.
fn put_number(text: &mut Vec<u8>, number: u64) -> Result<(), OutOfMemory>
    ensures { OnOk result (text.new.items ≡ text.old.items ++ decimal number) }
{
    put(text, itoa::Buffer::new().format(number).as_bytes())
}

/// Appends the number of a chunk, if there is one.
#[tactic(auto, unfolding(crate::specs::Words::chunk_head))]
fn put_chunk_head(text: &mut Vec<u8>, chunk: Option<usize>) -> Result<(), OutOfMemory>
    ensures { OnOk result (text.new.items ≡ text.old.items ++ chunk_head chunk) }
{
    match chunk {
        Some(chunk) => {
            put(text, b"chunk ")?;
            put_number(text, chunk as u64)?;
            put(text, b" ")
        }
        None => Ok(()),
    }
}

/// Appends the head of a line.
#[tactic(auto, unfolding(crate::specs::Words::head))]
fn put_head(text: &mut Vec<u8>, subject: Subject) -> Result<(), OutOfMemory>
    ensures { OnOk result (text.new.items ≡ text.old.items ++ head subject) }
{
    put(text, b"# packet ")?;
    put_number(text, subject.packet)?;
    put(text, b" ")?;
    put_chunk_head(text, subject.chunk)
}

/// Appends a line with these words.
#[tactic(auto, unfolding(crate::specs::Words::skipped))]
pub fn put_skipped(text: &mut Vec<u8>, subject: Subject, words: &[u8]) -> Result<(), OutOfMemory>
    ensures { OnOk result (text.new.items ≡ text.old.items ++ ended (skipped subject words.now)) }
{
    put_head(text, subject)?;
    put(text, words)?;
    put(text, b"\n")
}

/// Appends a line with these words and a number.
#[tactic(auto, unfolding(crate::specs::Words::skipped))]
pub fn put_skipped_number(
    text: &mut Vec<u8>,
    subject: Subject,
    words: &[u8],
    number: u64,
) -> Result<(), OutOfMemory>
    ensures { OnOk result (text.new.items ≡ text.old.items ++ ended (skipped subject (words.now ++ decimal number))) }
{
    put_head(text, subject)?;
    put(text, words)?;
    put_number(text, number)?;
    put(text, b"\n")
}

/// Appends a line with these words and octets in hexadecimal digits.
#[tactic(auto, unfolding(crate::specs::Words::skipped))]
pub fn put_skipped_octets(
    alloc: Global,
    text: &mut Vec<u8>,
    subject: Subject,
    words: &[u8],
    octets: &[u8],
) -> Result<(), OutOfMemory>
    ensures { OnOk result (text.new.items ≡ text.old.items ++ ended (skipped subject (words.now ++ encode_upper octets.now))) }
{
    put_head(text, subject)?;
    put(text, words)?;
    let digits = hex::encode_upper(alloc, octets)?;
    put(text, digits.as_bytes())?;
    put(text, b"\n")
}

/// Appends the name of a layer.
fn put_layer(text: &mut Vec<u8>, layer: Layer) -> Result<(), OutOfMemory>
    ensures { OnOk result (text.new.items ≡ text.old.items ++ layer_word layer) }
{
    match layer {
        Layer::Ethernet => put(text, b"ethernet"),
        Layer::Cooked => put(text, b"cooked"),
        Layer::Loopback => put(text, b"loopback"),
        Layer::Ip => put(text, b"ip"),
        Layer::Ipv6 => put(text, b"ipv6"),
        Layer::Sctp => put(text, b"sctp"),
        Layer::M2pa => put(text, b"m2pa"),
        Layer::Mtp2 => put(text, b"mtp2"),
        Layer::Mtp3 => put(text, b"mtp3"),
        Layer::Sccp => put(text, b"sccp"),
    }
}

/// Appends why a packet is not read.
#[tactic(auto, unfolding(crate::specs::Words::fault_words))]
fn put_fault_words(text: &mut Vec<u8>, fault: Fault) -> Result<(), OutOfMemory>
    ensures { OnOk result (text.new.items ≡ text.old.items ++ fault_words fault) }
{
    match fault {
        Fault::Link(link) => {
            put(text, b"link ")?;
            put_number(text, u64::from(link))
        }
        Fault::Short(layer) => {
            put(text, b"short ")?;
            put_layer(text, layer)
        }
        Fault::Bad(layer) => {
            put(text, b"bad ")?;
            put_layer(text, layer)
        }
        Fault::Fragment => put(text, b"fragment"),
    }
}

/// Appends the line of a packet that is not read.
#[tactic(auto, unfolding(crate::specs::Words::skipped))]
pub fn put_unread(text: &mut Vec<u8>, subject: Subject, fault: Fault) -> Result<(), OutOfMemory>
    ensures { OnOk result (text.new.items ≡ text.old.items ++ ended (skipped subject (fault_words fault))) }
{
    put_head(text, subject)?;
    put_fault_words(text, fault)?;
    put(text, b"\n")
}

/// Appends the line of a chunk that is not read.
pub fn put_bad_chunk(
    text: &mut Vec<u8>,
    subject: Subject,
    fault: ChunkFault,
) -> Result<(), OutOfMemory>
    ensures { OnOk result (text.new.items ≡ text.old.items ++ ended (skipped subject (chunk_fault_word fault))) }
{
    match fault {
        ChunkFault::Short => put_skipped(text, subject, b"short"),
        ChunkFault::Bad => put_skipped(text, subject, b"bad"),
        ChunkFault::Interleaved => put_skipped(text, subject, b"interleaved"),
    }
}

/// Appends the line of a block that has no packet.
pub fn put_bad_packet(
    text: &mut Vec<u8>,
    subject: Subject,
    bad: BadPacket,
) -> Result<(), OutOfMemory>
    ensures { OnOk result (text.new.items ≡ text.old.items ++ ended (skipped subject (bad_packet_word bad))) }
{
    match bad {
        BadPacket::NoInterface => put_skipped(text, subject, b"interface"),
        BadPacket::BadLength => put_skipped(text, subject, b"length"),
        BadPacket::TooLong => put_skipped(text, subject, b"long"),
    }
}

/// Appends the line of what is at a place of the file.
#[tactic(auto, unfolding(crate::specs::Words::octet_line))]
fn put_octet_line(text: &mut Vec<u8>, place: u64, words: &[u8]) -> Result<(), OutOfMemory>
    ensures { OnOk result (text.new.items ≡ text.old.items ++ ended (octet_line place words.now)) }
{
    put(text, b"# octet ")?;
    put_number(text, place)?;
    put(text, b" ")?;
    put(text, words)?;
    put(text, b"\n")
}

/// Appends the line of what ends the file early.
pub fn put_file_fault(text: &mut Vec<u8>, fault: FileFault) -> Result<(), OutOfMemory>
    ensures { OnOk result (text.new.items ≡ text.old.items ++ ended (file_fault_line fault)) }
{
    match fault {
        FileFault::Cut(place) => put_octet_line(text, place, b"cut"),
        FileFault::Damaged(place, damage) => match damage {
            Damage::NoCapture => put_octet_line(text, place, b"no capture"),
            Damage::Version => put_octet_line(text, place, b"version"),
            Damage::OtherOrder => put_octet_line(text, place, b"order"),
            Damage::Length => put_octet_line(text, place, b"length"),
            Damage::End => put_octet_line(text, place, b"end"),
            Damage::Interfaces => put_octet_line(text, place, b"interfaces"),
        },
    }
}

/// Appends a count after its name.
#[tactic(auto, unfolding(crate::specs::Words::named_count))]
fn put_named_count(text: &mut Vec<u8>, name: &[u8], count: u64) -> Result<(), OutOfMemory>
    ensures { OnOk result (text.new.items ≡ text.old.items ++ named_count name.now count) }
{
    put(text, name)?;
    put_number(text, count)
}

/// Appends the last line, with the counts.
#[tactic(auto, unfolding(crate::specs::Words::end_line))]
pub fn put_end_line(text: &mut Vec<u8>, counts: &Counts) -> Result<(), OutOfMemory>
    ensures { OnOk result (text.new.items ≡ text.old.items ++ ended (end_line counts.now)) }
{
    put_named_count(text, b"# end packets ", counts.packets)?;
    put_named_count(text, b" messages ", counts.messages)?;
    put_named_count(text, b" left ", counts.left)?;
    put_named_count(text, b" repeated ", counts.repeated)?;
    put_named_count(text, b" others ", counts.others)?;
    put_named_count(text, b" faults ", counts.faults)?;
    put(text, b"\n")
}
