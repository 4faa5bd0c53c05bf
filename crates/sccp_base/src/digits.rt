//! Digits of a global title: their order, and how they are read and written as text and as octets.
ghost use Rattle.std.specs.Prelude.{◌≡◌, ℕ, ◌<◌, ◌≤◌, ◌+◌, List, [], ◌∷◌, ◌++◌, length, IsTrue, ◌↔◌, Some, drop, SomeIff, replicate};
ghost use Rattle.std.specs.List.{starts_with, All};
ghost use Rattle.std.specs.Prelude.{nat_eq, nat_le, ◌*◌, if◌then◌else◌, IfOk, IfSome, slice_index};
ghost use Rattle.sccp_base.specs.Bcd.{halves, unpacked, packed};
ghost use Rattle.sccp_base.specs.DigitText.{digits_of, hex_digit};
ghost use Rattle.std.specs.Cmp.{partial_equiv_from_equiv};
ghost use Rattle.std.specs.Cmp.Lexicographic.{slice_cmp, pointwise, nat_list_eq_equiv, nat_list_cmp_total, texts_ties, texts_po};
ghost use Rattle.std.specs.Ordering.{nat_cmp};
ghost use Rattle.std.proofs.Common.{refl};

use crate::digits_fault::DigitsFault;
use crate::octets::Octets;
use crate::out_of_memory::OutOfMemory;
use std::alloc::Global;
use std::cmp::Ordering;
use std::marker::Model;

/// Up to 32 digits of a global title, each a half-octet, which contracts see as their list (Q.713 section 3.4.2.3).
/// Digits are ordered as lists, digit by digit; a list is below each longer one that it begins.
#[derive(Clone, Copy, Debug)]
pub struct Digits {
    halves: [u8; 32],
    len: u8,
}

impl Model for Digits {
    ghost use Rattle.std.specs.Prelude.{List, ℕ};

    ghost Value = { List ℕ };

    ghost use Rattle.sccp_base.specs.Digits.{IsLaidOut, shown, laid_out, laid_out-shown};

    ghost view = { shown };

    ghost invariant = { IsLaidOut };

    ghost inverse = { laid_out };

    ghost inverse_ok = { laid_out-shown };
}

impl Digits {
    /// No digits.
    pub const EMPTY: Digits = Digits {
        halves: [0; 32],
        len: 0,
    };

    /// Reads the half-octets as digits, the low half of each octet first (Q.713 section 3.4.2.3). If the number of digits
    /// is `odd`, the last half is left out. `TooMany` if there are more than 32 digits.
    pub fn unpack(octets: &[u8], odd: bool) -> Result<Digits, DigitsFault>
        requires { IsTrue odd → 0 < length octets.now }
        ensures { let digits = unpacked octets.now odd in
            result ≡ (if nat_le (length digits) 32 then Ok digits else Err DigitsFault.TooMany) }
    {
        let len = 2 * octets.len() - usize::from(odd);
        if len > 32 {
            return Err(DigitsFault::TooMany);
        }
        let mut digits = Digits::EMPTY;
        for place in 0..len {
            digits.push(half_at(octets, place));
        }
        Ok(digits)
    }

    /// Reads up to 32 hexadecimal digits of either case. `TooMany` if the text has more octets, otherwise `NotDigit` with
    /// the place of the first octet that is no such digit.
    pub fn parse(text: &[u8]) -> Result<Digits, DigitsFault>
        ensures { result ≡ digits_of text.now }
    {
        if text.len() > 32 {
            return Err(DigitsFault::TooMany);
        }
        let mut digits = Digits::EMPTY;
        for (place, octet) in text.iter().enumerate() {
            match hex_digit(*octet) {
                Some(half) => digits.push(half),
                None => return Err(DigitsFault::NotDigit(place)),
            }
        }
        Ok(digits)
    }

    /// Writes the digits as octets, the first digit of a pair in the low half; after an odd number of them follows the filler 0.
    pub fn pack(&self, alloc: Global) -> Result<Octets, OutOfMemory>
        ensures { IfOk result (λ octets. octets ≡ packed self.now) }
    {
        let digits = self.as_slice();
        let count = digits.len().div_ceil(2);
        let mut octets = Vec::with_capacity(alloc, count)?;
        for i in 0..count {
            octets.push(octet_at(digits, i))?;
        }
        Ok(Octets::from_vec(octets))
    }

    /// How many digits there are, up to 32.
    pub fn len(&self) -> usize
        ensures value { result ≡ length self.now }
        ensures limit { result ≤ 32 }
    {
        usize::from(self.len)
    }

    /// The digits in order, each from 0 to 15.
    pub fn as_slice(&self) -> &[u8]
        ensures value { result.now ≡ self.now }
        ensures halves { All (λ d. d < 16) result.now }
    {
        &self.halves[..usize::from(self.len)]
    }

    /// Whether each digit is below 10.
    pub fn is_decimal(&self) -> bool
        ensures { IsTrue result ↔ All (λ d. d < 10) self.now }
    {
        self.as_slice().iter().all(|digit| *digit < 10)
    }

    /// Drops the first `strip` digits, or all if there are fewer, and puts the digits `put` before the rest. `None` if the
    /// result has more than 32.
    pub fn rewritten(&self, strip: u8, put: &Digits) -> Option<Digits>
        ensures { SomeIff result (length (put.now ++ drop strip self.now) ≤ 32) (put.now ++ drop strip self.now) }
    {
        let own = self.len();
        if strip == 0 && put.len() == 0 {
            return Some(*self);
        }
        let rest = &self.as_slice()[usize::from(strip).min(own)..];
        Digits::joined(put.as_slice(), rest)
    }

    /// Two lists of digits, one after the other, each digit from 0 to 15. `None` if the result has more than 32.
    pub fn joined(front: &[u8], back: &[u8]) -> Option<Digits>
        requires front { All (λ d. d < 16) front.now }
        requires back { All (λ d. d < 16) back.now }
        ensures { SomeIff result (length (front.now ++ back.now) ≤ 32) (front.now ++ back.now) }
    {
        if front.len() + back.len() > 32 {
            return None;
        }
        let mut joined = Digits::EMPTY;
        joined.extend(front);
        joined.extend(back);
        Some(joined)
    }

    /// Whether the digits from a place on are decimal, that is, below 10.
    pub fn is_decimal_from(&self, place: usize) -> bool
        requires { place ≤ length self.now }
        ensures { IsTrue result ↔ All (λ d. d < 10) (drop place self.now) }
    {
        are_decimal(&self.as_slice()[place..])
    }

    /// How many digits there are, as an octet.
    pub fn count(&self) -> u8
        ensures { result ≡ length self.now }
    {
        self.len
    }

    /// These digits, and after them `count` zeros.
    pub fn with_zeros(&self, count: u8) -> Digits
        requires { length self.now + count ≤ 32 }
        ensures { result ≡ self.now ++ replicate count 0 }
    {
        let mut longer = *self;
        for _ in 0..count {
            longer.push(0);
        }
        longer
    }

    /// These digits, and after them one more.
    pub fn with(&self, half: u8) -> Digits
        requires half { half < 16 }
        requires room { length self.now < 32 }
        ensures { result ≡ self.now ++ half ∷ [] }
    {
        let mut longer = *self;
        longer.push(half);
        longer
    }

    /// Adds a digit at the end.
    fn push(&mut self, half: u8)
        requires half { half < 16 }
        requires room { length self.old < 32 }
        ensures { self.new ≡ self.old ++ half ∷ [] }
    {
        self.halves[usize::from(self.len)] = half;
        self.len += 1;
    }

    /// Adds several digits at the end.
    fn extend(&mut self, halves: &[u8])
        requires halves { All (λ d. d < 16) halves.now }
        requires room { length self.old + length halves.now ≤ 32 }
        ensures { self.new ≡ self.old ++ halves.now }
    {
        for half in halves {
            self.push(*half);
        }
    }

    /// Whether the prefix begins these digits. Each list begins itself, and the empty one begins each.
    pub fn starts_with(&self, prefix: &Digits) -> bool
        ensures { result ≡ starts_with nat_eq self.now prefix.now }
    {
        begins(self.as_slice(), prefix.as_slice())
    }
}

impl PartialEq for Digits {
    ghost eq = { λ a b. pointwise nat_eq a b };

    ghost laws = { partial_equiv_from_equiv nat_list_eq_equiv };

    fn eq(&self, other: &Digits) -> bool {
        self.as_slice() == other.as_slice()
    }
}

impl Eq for Digits {
    ghost laws = { nat_list_eq_equiv };
}

impl PartialOrd for Digits {
    ghost partial_cmp = { λ a b. Some (slice_cmp nat_cmp a b) };

    ghost laws = { texts_po };

    fn partial_cmp(&self, other: &Digits) -> Option<Ordering> {
        Some(self.cmp(other))
    }
}

impl Ord for Digits {
    ghost cmp = { slice_cmp nat_cmp };

    ghost total = { nat_list_cmp_total };

    ghost matches_partial_cmp = { λ a b. refl };

    ghost matches_eq = { texts_ties };

    fn cmp(&self, other: &Digits) -> Ordering {
        self.as_slice().cmp(other.as_slice())
    }
}

/// Whether the second list begins the first. It compares digit by digit, since most prefixes differ in one of the first.
fn begins(digits: &[u8], prefix: &[u8]) -> bool
    ensures { result ≡ starts_with nat_eq digits.now prefix.now }
{
    if digits.len() < prefix.len() {
        return false;
    }
    let front = &digits[..prefix.len()];
    for (i, digit) in prefix.iter().enumerate() {
        if front[i] != *digit {
            return false;
        }
    }
    true
}

/// Whether each half-octet is below 10.
fn are_decimal(halves: &[u8]) -> bool
    ensures { IsTrue result ↔ All (λ d. d < 10) halves.now }
{
    halves.iter().all(|half| *half < 10)
}

/// The half-octet at a place, the low half of each octet first.
fn half_at(octets: &[u8], place: usize) -> u8
    requires { place < 2 * length octets.now }
    ensures same { result ≡ slice_index (halves octets.now) place }
    ensures half { result < 16 }
{
    let octet = octets[place / 2];
    if place % 2 == 0 {
        octet & 0x0F
    } else {
        octet >> 4
    }
}

/// The octet of the i-th pair of digits. If the pair has one digit only, the high half is the filler 0.
fn octet_at(digits: &[u8], i: usize) -> u8
    requires halves { All (λ d. d < 16) digits.now }
    requires inside { 2 * i < length digits.now }
    ensures { result ≡ slice_index digits.now (2 * i) + 16 * slice_index digits.now (2 * i + 1) }
{
    let low = digits[2 * i];
    match digits.get(2 * i + 1) {
        Some(high) => low + 16 * *high,
        None => low,
    }
}

/// The value of a hexadecimal digit of either case. `None` for another octet.
fn hex_digit(octet: u8) -> Option<u8>
    ensures value { result ≡ hex_digit octet }
    ensures half { IfSome result (λ half. half < 16) }
{
    match octet {
        b'0'..=b'9' => Some(octet - b'0'),
        b'A'..=b'F' => Some(octet - b'A' + 10),
        b'a'..=b'f' => Some(octet - b'a' + 10),
        _ => None,
    }
}
