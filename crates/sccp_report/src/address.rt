//! The lines of the called and the calling address.
ghost use Rattle.std.specs.Prelude.{◌≡◌, ◌++◌, OnOk};
ghost use Rattle.sccp_report.specs.Fields.{raw_title_text, title_text, route_words, national_words, address_line, called as called_line};
ghost use Rattle.sccp_report.specs.Fields.{calling as calling_line};

use crate::text::Text;
use crate::values::{put_digits, put_number_or_dash, put_point_code_or_dash, put_selector};
use sccp_address::{Address, Title};
use sccp_base::OutOfMemory;

// The kind of a title that is kept as octets, and those octets.
#[tactic(auto, unfolding(crate::specs::Fields::raw_title_text))]
fn put_raw_title(text: &mut Text, kind: u8, octets: &[u8]) -> Result<(), OutOfMemory>
    ensures { OnOk result (text.new ≡ text.old ++ raw_title_text kind octets.now) }
{
    text.put(b" title ")?;
    text.put_numbered(b"raw:", u32::from(kind))?;
    text.put(b" digits ")?;
    text.put_octets(octets)
}

// The selector and the digits of a title, or its kind and the octets that it is kept as.
#[tactic(auto, unfolding(crate::specs::Fields::title_text))]
fn put_title(text: &mut Text, title: &Title) -> Result<(), OutOfMemory>
    ensures { OnOk result (text.new ≡ text.old ++ title_text title.now) }
{
    match title {
        Title::Absent => text.put(b" title - digits -"),
        Title::Global { selector, digits } => {
            text.put(b" title ")?;
            put_selector(text, selector)?;
            text.put(b" digits ")?;
            put_digits(text, digits)
        }
        Title::Raw { kind, octets } => put_raw_title(text, *kind, octets.as_slice()),
    }
}

// How the address is routed.
#[tactic(auto, unfolding(crate::specs::Fields::route_words))]
fn put_route(text: &mut Text, by_ssn: bool) -> Result<(), OutOfMemory>
    ensures { OnOk result (text.new ≡ text.old ++ route_words by_ssn) }
{
    text.put(if by_ssn {
        b" route ssn"
    } else {
        b" route title"
    })
}

// The end of the line, after a word if the bit for national use is set.
#[tactic(auto, unfolding(crate::specs::Fields::national_words))]
fn put_national(text: &mut Text, national: bool) -> Result<(), OutOfMemory>
    ensures { OnOk result (text.new ≡ text.old ++ national_words national) }
{
    text.put(if national { b" national\n" } else { b"\n" })
}

// A name and an address.
#[tactic(auto, unfolding(crate::specs::Fields::address_line))]
fn put_address(text: &mut Text, name: &[u8], address: &Address) -> Result<(), OutOfMemory>
    ensures { OnOk result (text.new ≡ text.old ++ address_line name.now address.now) }
{
    text.put(name)?;
    put_route(text, address.by_ssn)?;
    text.put(b" point ")?;
    put_point_code_or_dash(text, address.pc)?;
    text.put(b" ssn ")?;
    put_number_or_dash(text, address.ssn)?;
    put_title(text, &address.title)?;
    put_national(text, address.national)
}

/// Appends the line of the called address (Q.713 section 3.4).
#[tactic(auto, unfolding(crate::specs::Fields::called))]
pub fn put_called(text: &mut Text, address: &Address) -> Result<(), OutOfMemory>
    ensures { OnOk result (text.new ≡ text.old ++ called_line address.now) }
{
    put_address(text, b"called", address)
}

/// Appends the line of the calling address (Q.713 section 3.5).
#[tactic(auto, unfolding(crate::specs::Fields::calling))]
pub fn put_calling(text: &mut Text, address: &Address) -> Result<(), OutOfMemory>
    ensures { OnOk result (text.new ≡ text.old ++ calling_line address.now) }
{
    put_address(text, b"calling", address)
}
