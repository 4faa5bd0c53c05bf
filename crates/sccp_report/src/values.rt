//! The texts of point codes, selectors, digits and numbers.
ghost use Rattle.std.specs.Prelude.{◌≡◌, ◌++◌, decimal, map, slice_index, OnOk};
ghost use Rattle.hex.specs.Hex.{upper_digits};
ghost use Rattle.sccp_report.specs.Values.{or_dash, digits_text, point_code_text, selector_text};

use crate::text::Text;
use sccp_base::{Digits, OutOfMemory, PointCode, Selector};

/// The sixteen digits that a title may have.
const DIGITS: &[u8; 16] = b"0123456789ABCDEF";

/// Appends a point code as zone, area and signalling point.
#[tactic(auto, unfolding(crate::specs::Values::point_code_text))]
pub fn put_point_code(text: &mut Text, pc: PointCode) -> Result<(), OutOfMemory>
    ensures { OnOk result (text.new ≡ text.old ++ point_code_text pc) }
{
    let value = u32::from(pc.value());
    text.put_number(value / 2048)?;
    text.put(b"-")?;
    text.put_number(value / 8 % 256)?;
    text.put(b"-")?;
    text.put_number(value % 8)
}

/// Appends a selector's kind and the numbers that this kind has.
#[tactic(auto, unfolding(crate::specs::Values::selector_text))]
pub fn put_selector(text: &mut Text, selector: &Selector) -> Result<(), OutOfMemory>
    ensures { OnOk result (text.new ≡ text.old ++ selector_text selector.now) }
{
    let translation = u32::from(selector.translation());
    let plan = u32::from(selector.plan());
    let nature = u32::from(selector.nature());
    match selector.kind() {
        1 => {
            text.put(b"1:")?;
            text.put_number(nature)
        }
        2 => {
            text.put(b"2:")?;
            text.put_number(translation)
        }
        3 => {
            text.put(b"3:")?;
            text.put_number(translation)?;
            text.put(b":")?;
            text.put_number(plan)
        }
        _ => {
            text.put(b"4:")?;
            text.put_number(translation)?;
            text.put(b":")?;
            text.put_number(plan)?;
            text.put(b":")?;
            text.put_number(nature)
        }
    }
}

// A character for each digit.
#[tactic(auto, using(crate::proofs::DigitTexts::digits_more))]
fn put_each_digit(text: &mut Text, digits: &Digits) -> Result<(), OutOfMemory>
    ensures { OnOk result (text.new ≡ text.old ++ map (slice_index upper_digits) digits.now) }
{
    for digit in digits.as_slice() {
        text.put(&[DIGITS[usize::from(*digit)]])?;
    }
    Ok(())
}

/// Appends digits, or a dash if there is none.
#[tactic(auto, unfolding(crate::specs::Values::digits_text))]
pub fn put_digits(text: &mut Text, digits: &Digits) -> Result<(), OutOfMemory>
    ensures { OnOk result (text.new ≡ text.old ++ digits_text digits.now) }
{
    if digits.len() == 0 {
        return text.put(b"-");
    }
    put_each_digit(text, digits)
}

/// Appends a point code, or a dash if there is none.
pub fn put_point_code_or_dash(text: &mut Text, pc: Option<PointCode>) -> Result<(), OutOfMemory>
    ensures { OnOk result (text.new ≡ text.old ++ or_dash point_code_text pc) }
{
    match pc {
        Some(pc) => put_point_code(text, pc),
        None => text.put(b"-"),
    }
}

/// Appends a number, or a dash if there is none.
pub fn put_number_or_dash(text: &mut Text, number: Option<u8>) -> Result<(), OutOfMemory>
    ensures { OnOk result (text.new ≡ text.old ++ or_dash decimal number) }
{
    match number {
        Some(number) => text.put_number(u32::from(number)),
        None => text.put(b"-"),
    }
}
