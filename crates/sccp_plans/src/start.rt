//! The start of a route: a title at a node.
ghost use Rattle.std.specs.Prelude.{◌≡◌};
ghost use Rattle.sccp_plans.specs.Starts.{ssn_of, digits_word, title_digits, start_of};

use sccp_base::{Digits, Name, Selector, decimal};

/// A title, and the name of the node that it is at.
#[derive(Clone, Copy)]
pub struct Start {
    pub node: Name,
    pub selector: Selector,
    pub ssn: u8,
    pub digits: Digits,
}

/// The words that spell a start.
#[derive(Clone, Copy)]
pub struct StartWords<'a> {
    pub node: &'a str,
    pub selector: &'a str,
    pub ssn: &'a str,
    pub digits: &'a str,
}

/// The start that four words spell, or none if one of them does not have its form.
#[tactic(auto, unfolding(crate::specs::Starts::start_of))]
pub fn start_of(words: &StartWords<'_>) -> Option<Start>
    ensures { result ≡ start_of words.now.node.now words.now.selector.now words.now.ssn.now words.now.digits.now }
{
    let node = Name::parse(words.node.as_bytes())?;
    let selector = Selector::parse(words.selector.as_bytes())?;
    let ssn = ssn_of(words.ssn.as_bytes())?;
    let digits = title_digits(words.digits)?;
    Some(Start {
        node,
        selector,
        ssn,
        digits,
    })
}

/// A subsystem number of one to ten decimal digits.
fn ssn_of(word: &[u8]) -> Option<u8>
    ensures { result ≡ ssn_of word.now }
{
    match decimal(word, 10) {
        Some(value) if value < 256 => Some(value as u8),
        _ => None,
    }
}

/// The word that spells the digits: a hyphen means the empty one.
fn digits_word(word: &str) -> &str
    ensures { result.now ≡ digits_word word.now }
{
    if word == "-" { "" } else { word }
}

/// The digits of a title.
fn title_digits(word: &str) -> Option<Digits>
    ensures { result ≡ title_digits word.now }
{
    match Digits::parse(digits_word(word).as_bytes()) {
        Ok(digits) => Some(digits),
        Err(_) => None,
    }
}
