//! The line of each field of a message, with its line feed.
ghost use Rattle.std.specs.Prelude.{◌≡◌, ◌++◌, OnOk};
ghost use Rattle.std.specs.Option.{option_copied};
ghost use Rattle.sccp_report.specs.Fields.{number_line, source, destination, send, receive, credit, hops, more_line, class_line};
ghost use Rattle.sccp_report.specs.Fields.{after_blank, cause_line, return_cause, refusal_cause, error_cause, release_cause, reset_cause};
ghost use Rattle.sccp_report.specs.Fields.{data_line, parameter_line, parameter_lines};

use crate::text::Text;
use sccp_base::{List, Octets, OutOfMemory, Reference, Seven};
use sccp_layout::Param;
use sccp_message::{CauseTable, cause_text};

// A name with its blank, and a number.
#[tactic(auto, unfolding(crate::specs::Fields::number_line))]
fn put_number_line(text: &mut Text, name: &[u8], number: u32) -> Result<(), OutOfMemory>
    ensures { OnOk result (text.new ≡ text.old ++ number_line name.now number) }
{
    text.put_numbered(name, number)?;
    text.put(b"\n")
}

/// Appends the line of the source local reference (Q.713 section 3.3).
#[tactic(auto, unfolding(crate::specs::Fields::source))]
pub fn put_source(text: &mut Text, slr: Reference) -> Result<(), OutOfMemory>
    ensures { OnOk result (text.new ≡ text.old ++ source slr) }
{
    put_number_line(text, b"source ", slr.value())
}

/// Appends the line of the destination local reference (Q.713 section 3.2).
#[tactic(auto, unfolding(crate::specs::Fields::destination))]
pub fn put_destination(text: &mut Text, dlr: Reference) -> Result<(), OutOfMemory>
    ensures { OnOk result (text.new ≡ text.old ++ destination dlr) }
{
    put_number_line(text, b"destination ", dlr.value())
}

/// Appends the line of the send sequence number P(S) (Q.713 section 3.9).
#[tactic(auto, unfolding(crate::specs::Fields::send))]
pub fn put_send(text: &mut Text, number: Seven) -> Result<(), OutOfMemory>
    ensures { OnOk result (text.new ≡ text.old ++ send number) }
{
    put_number_line(text, b"send ", u32::from(number.value()))
}

/// Appends the line of the receive sequence number P(R) (Q.713 sections 3.8 and 3.9).
#[tactic(auto, unfolding(crate::specs::Fields::receive))]
pub fn put_receive(text: &mut Text, number: Seven) -> Result<(), OutOfMemory>
    ensures { OnOk result (text.new ≡ text.old ++ receive number) }
{
    put_number_line(text, b"receive ", u32::from(number.value()))
}

/// Appends the line of the credit (Q.713 section 3.10).
#[tactic(auto, unfolding(crate::specs::Fields::credit))]
pub fn put_credit(text: &mut Text, number: u8) -> Result<(), OutOfMemory>
    ensures { OnOk result (text.new ≡ text.old ++ credit number) }
{
    put_number_line(text, b"credit ", u32::from(number))
}

/// Appends the line of the hop counter (Q.713 section 3.18).
#[tactic(auto, unfolding(crate::specs::Fields::hops))]
pub fn put_hops(text: &mut Text, number: u8) -> Result<(), OutOfMemory>
    ensures { OnOk result (text.new ≡ text.old ++ hops number) }
{
    put_number_line(text, b"hops ", u32::from(number))
}

/// Appends the line that says whether more data follows (Q.713 sections 3.7 and 3.9).
#[tactic(auto, unfolding(crate::specs::Fields::more_line))]
pub fn put_more(text: &mut Text, more: bool) -> Result<(), OutOfMemory>
    ensures { OnOk result (text.new ≡ text.old ++ more_line more) }
{
    text.put(if more { b"more yes\n" } else { b"more no\n" })
}

/// Appends the line of the protocol class, with the options in the upper four bits as a number (Q.713 section 3.6).
#[tactic(auto, unfolding(crate::specs::Fields::class_line))]
pub fn put_class(text: &mut Text, class: u8) -> Result<(), OutOfMemory>
    ensures { OnOk result (text.new ≡ text.old ++ class_line class) }
{
    text.put(b"class ")?;
    text.put_number(u32::from(class & 0x0F))?;
    text.put(b" options ")?;
    text.put_number(u32::from(class >> 4))?;
    text.put(b"\n")
}

// A blank and a text, or nothing.
fn put_after_blank(text: &mut Text, words: Option<&str>) -> Result<(), OutOfMemory>
    ensures { OnOk result (text.new ≡ text.old ++ after_blank (option_copied words.entry)) }
{
    match words {
        Some(words) => {
            text.put(b" ")?;
            text.put(words.as_bytes())
        }
        None => Ok(()),
    }
}

/// Appends a line: the name of a cause, its number, and its text if its table has one.
#[tactic(auto, unfolding(crate::specs::Fields::cause_line))]
pub fn put_cause(
    text: &mut Text,
    name: &[u8],
    table: CauseTable,
    cause: u8,
) -> Result<(), OutOfMemory>
    ensures { OnOk result (text.new ≡ text.old ++ cause_line name.now table cause) }
{
    text.put_numbered(name, u32::from(cause))?;
    put_after_blank(text, cause_text(table, cause))?;
    text.put(b"\n")
}

/// Appends the line of the return cause (Q.713 section 3.12).
#[tactic(auto, unfolding(crate::specs::Fields::return_cause))]
pub fn put_return_cause(text: &mut Text, cause: u8) -> Result<(), OutOfMemory>
    ensures { OnOk result (text.new ≡ text.old ++ return_cause cause) }
{
    put_cause(text, b"return cause ", CauseTable::Return, cause)
}

/// Appends the line of the refusal cause (Q.713 section 3.15).
#[tactic(auto, unfolding(crate::specs::Fields::refusal_cause))]
pub fn put_refusal_cause(text: &mut Text, cause: u8) -> Result<(), OutOfMemory>
    ensures { OnOk result (text.new ≡ text.old ++ refusal_cause cause) }
{
    put_cause(text, b"refusal cause ", CauseTable::Refusal, cause)
}

/// Appends the line of the error cause (Q.713 section 3.14).
#[tactic(auto, unfolding(crate::specs::Fields::error_cause))]
pub fn put_error_cause(text: &mut Text, cause: u8) -> Result<(), OutOfMemory>
    ensures { OnOk result (text.new ≡ text.old ++ error_cause cause) }
{
    put_cause(text, b"error cause ", CauseTable::Fault, cause)
}

/// Appends the line of the release cause (Q.713 section 3.11), which has no text.
#[tactic(auto, unfolding(crate::specs::Fields::release_cause))]
pub fn put_release_cause(text: &mut Text, cause: u8) -> Result<(), OutOfMemory>
    ensures { OnOk result (text.new ≡ text.old ++ release_cause cause) }
{
    put_number_line(text, b"release cause ", u32::from(cause))
}

/// Appends the line of the reset cause (Q.713 section 3.13), which has no text.
#[tactic(auto, unfolding(crate::specs::Fields::reset_cause))]
pub fn put_reset_cause(text: &mut Text, cause: u8) -> Result<(), OutOfMemory>
    ensures { OnOk result (text.new ≡ text.old ++ reset_cause cause) }
{
    put_number_line(text, b"reset cause ", u32::from(cause))
}

/// Appends the line of the data of a message, in hexadecimal digits (Q.713 sections 3.16 and 3.20).
#[tactic(auto, unfolding(crate::specs::Fields::data_line))]
pub fn put_data(text: &mut Text, payload: &Octets) -> Result<(), OutOfMemory>
    ensures { OnOk result (text.new ≡ text.old ++ data_line payload.now) }
{
    text.put(b"data ")?;
    text.put_octets(payload.as_slice())?;
    text.put(b"\n")
}

#[tactic(auto, unfolding(crate::specs::Fields::parameter_line))]
fn put_parameter(text: &mut Text, param: &Param) -> Result<(), OutOfMemory>
    ensures { OnOk result (text.new ≡ text.old ++ parameter_line param.now) }
{
    text.put(b"parameter ")?;
    text.put_octet(param.name())?;
    text.put(b" ")?;
    text.put_octets(param.octets())?;
    text.put(b"\n")
}

/// Appends a line for each optional parameter, in their order.
pub fn put_parameters(text: &mut Text, params: &List<Param>) -> Result<(), OutOfMemory>
    ensures { OnOk result (text.new ≡ text.old ++ parameter_lines params.now) }
{
    for param in params.as_slice() {
        put_parameter(text, param)?;
    }
    Ok(())
}
