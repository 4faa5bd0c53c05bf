//! Reading an address from octets (Q.713 section 3.4).
ghost use Rattle.std.specs.Prelude.{◌≡◌, ◌≤◌, ◌+◌, ◌<◌, ◌&&◌, ◌==◌, if◌then◌else◌, IfOk, Ok};
ghost use Rattle.sccp_base.specs.Answers.{◌>>=◌ as bind};
ghost use Rattle.sccp_base.specs.Bits.{bit, bits};
ghost use Rattle.sccp_base.specs.Selector.{numbers};
ghost use Rattle.sccp_address.specs.declared.address.Address.{Address};
ghost use Rattle.sccp_address.specs.Addresses.{AddressIs};
ghost use Rattle.sccp_address.specs.Written.{IsAddress};
ghost use Rattle.sccp_address.specs.Faults.{Gives};
ghost use Rattle.sccp_address.specs.Reading.{field_at, point_code, first_of, global_or_raw, by_scheme, none_at, nature_at, translation_at};
ghost use Rattle.sccp_address.specs.Reading.{plan_at, full_at, title_at, address_of};

use crate::address::{Address, Title};
use crate::fault::AddressFault;
use sccp_base::{Digits, Octets, PointCode, Selector};
use std::alloc::Global;

// Whether a bit of an octet is set. Bit 1 is the lowest.
fn is_set(octet: u8, place: u32) -> bool
    requires low { 1 ≤ place }
    requires high { place ≤ 8 }
    ensures { result ≡ bit octet place }
{
    (octet >> (place - 1)) & 1 == 1
}

// A field of `len` octets, and what follows it. `Short` if fewer octets are left.
fn field_of(len: usize, octets: &[u8]) -> Result<(&[u8], &[u8]), AddressFault>
    ensures { Gives (λ x. (x.0.now, x.1.now)) result (field_at len octets.now) }
{
    if octets.len() < len {
        return Err(AddressFault::Short);
    }
    Ok(octets.split_at(len))
}

// The point code of a field of two octets, the low octet first. The two top bits are spare.
fn pc_of(octets: &[u8]) -> Option<PointCode>
    ensures { result ≡ point_code octets.now }
{
    match octets {
        [low, high, ..] => PointCode::new(u16::from(*low) + 256 * u16::from(*high & 0x3F)),
        _ => None,
    }
}

// A title that is kept as its octets, with its kind.
fn raw(alloc: Global, kind: u8, octets: &[u8]) -> Result<Title, AddressFault>
    ensures { Gives (λ t. t) result (Ok (Title.Raw kind octets.now)) }
{
    let octets = Octets::from_vec(Vec::from_slice(alloc, octets)?);
    Ok(Title::Raw { kind, octets })
}

// A title with digits. If it has more than 32, it is kept as its octets.
fn global(
    alloc: Global,
    selector: Selector,
    odd: bool,
    digits: &[u8],
    octets: &[u8],
) -> Result<Title, AddressFault>
    ensures { Gives (λ t. t) result (global_or_raw selector odd digits.now octets.now) }
{
    if odd && digits.is_empty() {
        return Err(AddressFault::OddWithoutDigits);
    }
    match Digits::unpack(digits, odd) {
        Ok(digits) => Ok(Title::Global { selector, digits }),
        Err(_) => raw(alloc, selector.kind(), octets),
    }
}

// A title whose encoding scheme says whether the number of its digits is odd. Under another scheme it is kept as its octets.
fn schemed(
    alloc: Global,
    scheme: u8,
    selector: Selector,
    digits: &[u8],
    octets: &[u8],
) -> Result<Title, AddressFault>
    ensures { Gives (λ t. t) result (by_scheme scheme selector digits.now octets.now) }
{
    match scheme {
        1 => global(alloc, selector, true, digits, octets),
        2 => global(alloc, selector, false, digits, octets),
        _ => raw(alloc, selector.kind(), octets),
    }
}

// No title. `Extra` if octets are left.
fn none_of(octets: &[u8]) -> Result<Title, AddressFault>
    ensures { Gives (λ t. t) result (none_at octets.now) }
{
    match octets {
        [] => Ok(Title::Absent),
        _ => Err(AddressFault::Extra),
    }
}

// The encoding scheme, which is the low half of its octet.
fn scheme_of(plan: u8) -> u8
    ensures { result ≡ bits plan 1 4 }
{
    plan & 0x0F
}

// The selector of kind 1, from the octet of the nature of address.
fn nature_selector(nature: u8) -> Selector
    ensures { result ≡ numbers 1 0 0 (bits nature 1 7) }
{
    Selector::new(1, 0, 0, nature & 0x7F).unwrap()
}

// The selector of kind 2, from the translation type.
fn translation_selector(translation: u8) -> Selector
    ensures { result ≡ numbers 2 translation 0 0 }
{
    Selector::new(2, translation, 0, 0).unwrap()
}

// The selector of kind 3, from the octets of the translation type and of the numbering plan.
fn plan_selector(translation: u8, plan: u8) -> Selector
    ensures { result ≡ numbers 3 translation (bits plan 5 8) 0 }
{
    Selector::new(3, translation, plan >> 4, 0).unwrap()
}

// The selector of kind 4, from the three octets before the digits.
fn full_selector(translation: u8, plan: u8, nature: u8) -> Selector
    ensures { result ≡ numbers 4 translation (bits plan 5 8) (bits nature 1 7) }
{
    Selector::new(4, translation, plan >> 4, nature & 0x7F).unwrap()
}

// A title of kind 1: the nature of address before the digits.
fn nature_of(alloc: Global, octets: &[u8]) -> Result<Title, AddressFault>
    ensures { Gives (λ t. t) result (nature_at octets.now) }
{
    let [nature, digits @ ..] = octets else {
        return Err(AddressFault::Short);
    };
    let selector = nature_selector(*nature);
    global(alloc, selector, is_set(*nature, 8), digits, octets)
}

// A title of kind 2: the translation type before the digits.
fn translation_of(alloc: Global, octets: &[u8]) -> Result<Title, AddressFault>
    ensures { Gives (λ t. t) result (translation_at octets.now) }
{
    let [translation, digits @ ..] = octets else {
        return Err(AddressFault::Short);
    };
    let selector = translation_selector(*translation);
    global(alloc, selector, false, digits, octets)
}

// A title of kind 3: translation type, and numbering plan with encoding scheme before the digits.
fn plan_of(alloc: Global, octets: &[u8]) -> Result<Title, AddressFault>
    ensures { Gives (λ t. t) result (plan_at octets.now) }
{
    let [translation, plan, digits @ ..] = octets else {
        return Err(AddressFault::Short);
    };
    let selector = plan_selector(*translation, *plan);
    schemed(alloc, scheme_of(*plan), selector, digits, octets)
}

// A title of kind 4: translation type, numbering plan with encoding scheme, and nature of address before the digits.
fn full_of(alloc: Global, octets: &[u8]) -> Result<Title, AddressFault>
    ensures { Gives (λ t. t) result (full_at octets.now) }
{
    let [translation, plan, nature, digits @ ..] = octets else {
        return Err(AddressFault::Short);
    };
    let selector = full_selector(*translation, *plan, *nature);
    schemed(alloc, scheme_of(*plan), selector, digits, octets)
}

// The title of a kind. Its octets are all those that are left.
fn title_of(alloc: Global, kind: u8, octets: &[u8]) -> Result<Title, AddressFault>
    ensures { Gives (λ t. t) result (title_at kind octets.now) }
{
    match kind {
        0 => none_of(octets),
        1 => nature_of(alloc, octets),
        2 => translation_of(alloc, octets),
        3 => plan_of(alloc, octets),
        4 => full_of(alloc, octets),
        _ => raw(alloc, kind, octets),
    }
}

// The field of the subsystem number, which is empty unless the indicator announces it, and what follows it.
fn ssn_field(indicator: u8, octets: &[u8]) -> Result<(&[u8], &[u8]), AddressFault>
    ensures { Gives (λ x. (x.0.now, x.1.now)) result (field_at (if bit indicator 2 then 1 else 0) octets.now) }
{
    if is_set(indicator, 2) {
        field_of(1, octets)
    } else {
        field_of(0, octets)
    }
}

// The kind of title that the indicator announces, in its bits 3 to 6.
fn kind_of(indicator: u8) -> u8
    ensures { result ≡ bits indicator 3 6 }
{
    (indicator >> 2) & 0x0F
}

// The subsystem number in its field.
fn ssn_of(octets: &[u8]) -> Option<u8>
    ensures { result ≡ first_of octets.now }
{
    match octets {
        [ssn, ..] => Some(*ssn),
        _ => None,
    }
}

// The address, from its indicator, its point code field and the octets after them.
fn behind_pc(
    alloc: Global,
    indicator: u8,
    pc: &[u8],
    octets: &[u8],
) -> Result<Address, AddressFault>
    ensures { Gives (λ a. a) result (bind (field_at (if bit indicator 2 then 1 else 0) octets.now)
        (λ ssn. bind (title_at (bits indicator 3 6) ssn.1)
        (λ title. Ok (record {
          national = bit indicator 8;
          by_ssn = bit indicator 7;
          pc = point_code pc.now;
          ssn = first_of ssn.0;
          title = title;
        })))) }
{
    let (ssn, rest) = ssn_field(indicator, octets)?;
    let title = title_of(alloc, kind_of(indicator), rest)?;
    Ok(Address {
        national: is_set(indicator, 8),
        by_ssn: is_set(indicator, 7),
        pc: pc_of(pc),
        ssn: ssn_of(ssn),
        title,
    })
}

// The address by the one definition of what reading gives. `read` promises the same by what the octets are.
#[tactic(auto, unfolding(crate::specs::Reading::address_of))]
fn address(alloc: Global, octets: &[u8]) -> Result<Address, AddressFault>
    ensures { Gives (λ a. a) result (address_of octets.now) }
{
    let [indicator, rest @ ..] = octets else {
        return Err(AddressFault::Empty);
    };
    let (pc, rest) = field_of(if is_set(*indicator, 1) { 2 } else { 0 }, rest)?;
    behind_pc(alloc, *indicator, pc, rest)
}

/// Reads an address, which is all of the octets (Q.713 section 3.4). Spare bits and the filler are ignored.
///
/// The first fault from left to right is given. `Empty`: there is no indicator. `Short`: a field that the indicator
/// announces is missing, or an octet before the digits of the title. `Extra`: octets are left, and no title is announced.
/// `OddWithoutDigits`: the number of digits is said to be odd, and no octet has digits.
pub fn read(alloc: Global, octets: &[u8]) -> Result<Address, AddressFault>
    ensures found { IfOk result (λ a. AddressIs octets.now a) }
    ensures kept { IfOk result (λ a. IsAddress a) }
    ensures only { (a : Address) → AddressIs octets.now a → Gives (λ a. a) result (Ok a) }
    ensures exact { Gives (λ a. a) result (address_of octets.now) }
{
    address(alloc, octets)
}
