//! The names of message types (Q.713 section 2.1), and of the kinds of status message (section 5).
ghost use Rattle.std.specs.Prelude.{◌≡◌, ◌++◌, OnOk};
ghost use Rattle.watch_text.specs.Lines.{unit_types, connection_types, name_in, unit_name, connection_name, kind_word, status_words};
ghost use Rattle.watch_text.specs.Lines.{connection_word, management_word};

use sccp_base::OutOfMemory;
use sccp_manage::{StatusKind, StatusMessage};
use sccp_report::{Text, put_destination};

/// The name of the connectionless type with a code; nothing if none has it.
fn unit_type(code: u8) -> &'static [u8]
    ensures { result.now ≡ name_in code unit_types }
{
    match code {
        0x09 => b"UDT",
        0x0A => b"UDTS",
        0x11 => b"XUDT",
        0x12 => b"XUDTS",
        0x13 => b"LUDT",
        0x14 => b"LUDTS",
        _ => b"",
    }
}

/// The same of a connection-oriented type.
fn connection_type(code: u8) -> &'static [u8]
    ensures { result.now ≡ name_in code connection_types }
{
    match code {
        0x01 => b"CR",
        0x02 => b"CC",
        0x03 => b"CREF",
        0x04 => b"RLSD",
        0x05 => b"RLC",
        0x06 => b"DT1",
        0x07 => b"DT2",
        0x08 => b"AK",
        0x0B => b"ED",
        0x0C => b"EA",
        0x0D => b"RSR",
        0x0E => b"RSC",
        0x0F => b"ERR",
        0x10 => b"IT",
        _ => b"",
    }
}

/// Appends the name of the type of a connectionless message with these octets.
#[tactic(auto, unfolding(crate::specs::Lines::unit_name))]
pub fn put_unit_name(text: &mut Text, octets: &[u8]) -> Result<(), OutOfMemory>
    ensures { OnOk result (text.new ≡ text.old ++ unit_name octets.now) }
{
    match octets {
        [code, ..] => text.put(unit_type(*code)),
        [] => Ok(()),
    }
}

/// Appends the word before the type of a message that is not judged.
#[tactic(auto, unfolding(crate::specs::Lines::connection_word))]
pub fn put_connection_word(text: &mut Text) -> Result<(), OutOfMemory>
    ensures { OnOk result (text.new ≡ text.old ++ connection_word) }
{
    text.put(b"connection ")
}

/// Appends the name of the type of a connection-oriented message with these octets.
#[tactic(auto, unfolding(crate::specs::Lines::connection_name))]
pub fn put_connection_name(text: &mut Text, octets: &[u8]) -> Result<(), OutOfMemory>
    ensures { OnOk result (text.new ≡ text.old ++ connection_name octets.now) }
{
    match octets {
        [code, ..] => text.put(connection_type(*code)),
        [] => Ok(()),
    }
}

/// Appends the short name of a kind of status message.
#[tactic(auto, unfolding(crate::specs::Lines::kind_word))]
fn put_kind(text: &mut Text, kind: &StatusKind) -> Result<(), OutOfMemory>
    ensures { OnOk result (text.new ≡ text.old ++ kind_word kind.now) }
{
    match kind {
        StatusKind::Allowed => text.put(b"ssa"),
        StatusKind::Prohibited => text.put(b"ssp"),
        StatusKind::Test => text.put(b"sst"),
        StatusKind::OutOfServiceRequest => text.put(b"sor"),
        StatusKind::OutOfServiceGrant => text.put(b"sog"),
        StatusKind::Congested => text.put(b"ssc"),
    }
}

/// Appends the word before what management says.
#[tactic(auto, unfolding(crate::specs::Lines::management_word))]
pub fn put_management_word(text: &mut Text) -> Result<(), OutOfMemory>
    ensures { OnOk result (text.new ≡ text.old ++ management_word) }
{
    text.put(b"management ")
}

/// Appends what management says of which subsystem.
#[tactic(auto, unfolding(crate::specs::Lines::status_words))]
pub fn put_status(text: &mut Text, status: &Option<StatusMessage>) -> Result<(), OutOfMemory>
    ensures { OnOk result (text.new ≡ text.old ++ status_words status.now) }
{
    match status {
        Some(status) => {
            put_kind(text, &status.kind)?;
            text.put(b" ")?;
            put_destination(text, status.pc, status.ssn)
        }
        None => text.put(b"unknown"),
    }
}
