//! The values that the texts and integers of a plan text spell.
ghost use Rattle.std.specs.Prelude.{◌≡◌, ◌≤◌, IfSome, length};
ghost use Rattle.plan_text.specs.Words.{within, digits_up_to, place_of};

use sccp_base::{Digits, PointCode, byte, cut};

/// The integer, if it is from `least` to `most`.
#[tactic(auto, unfolding(crate::specs::Words::within))]
pub(crate) fn within(least: u8, most: u8, value: i64) -> Option<u8>
    ensures same { result ≡ within least most value }
    ensures least { IfSome result (λ n. least ≤ n) }
    ensures most { IfSome result (λ n. n ≤ most) }
{
    match u8::try_from(value) {
        Ok(number) if least <= number && number <= most => Some(number),
        _ => None,
    }
}

/// The digits that a text spells, if they are at most `most`.
#[tactic(auto, unfolding(crate::specs::Words::digits_up_to))]
pub(crate) fn digits_up_to(most: usize, text: &[u8]) -> Option<Digits>
    ensures same { result ≡ digits_up_to most text.now }
    ensures few { IfSome result (λ digits. length digits ≤ most) }
{
    match Digits::parse(text) {
        Ok(digits) if digits.len() <= most => Some(digits),
        _ => None,
    }
}

/// The place that a text spells: a point code, a slash and a subsystem number of one to three decimal digits.
#[tactic(auto, unfolding(crate::specs::Words::place_of))]
pub(crate) fn place_of(text: &[u8]) -> Option<(PointCode, u8)>
    ensures { result ≡ place_of text.now }
{
    match cut(text, b'/') {
        Some((point, ssn)) => match PointCode::parse(point) {
            Some(pc) => match byte(ssn) {
                Some(ssn) => Some((pc, ssn)),
                None => None,
            },
            None => None,
        },
        None => None,
    }
}
