//! Addresses and their global titles.
ghost use Rattle.std.specs.Prelude.{◌≡◌, ◌%◌, length, IfOk, IfSome};
ghost use Rattle.std.specs.Option.{SomeIff};
ghost use Rattle.sccp_address.specs.Addresses.{selector_in, digits_in};

use sccp_base::{Digits, Octets, OutOfMemory, PointCode, Selector};
use std::alloc::Global;

/// A called or calling address (Q.713 sections 3.4 and 3.5).
#[derive(Drop)]
pub struct Address {
    /// Bit 8 of the indicator, which is reserved for national use.
    pub national: bool,
    /// Whether routing is by subsystem number, and not by global title.
    pub by_ssn: bool,
    /// The signalling point code, if the address has one (3.4.2.1).
    pub pc: Option<PointCode>,
    /// The subsystem number, if the address has one (3.4.2.2).
    pub ssn: Option<u8>,
    /// The global title (3.4.2.3).
    pub title: Title,
}

/// A global title (Q.713 section 3.4.2.3).
#[derive(Drop)]
pub enum Title {
    /// The address has no global title.
    Absent,
    /// A title whose digits are binary coded decimal. Under kind 2 their number is even.
    Global { selector: Selector, digits: Digits },
    /// A title that is kept as its octets: of a kind other than 1 to 4, of another encoding scheme, or of more than
    /// 32 digits. Only `read` makes one.
    Raw { kind: u8, octets: Octets },
}

impl Title {
    ghost use Rattle.sccp_address.specs.Written.{IsTitle};

    /// A title with digits. `None` for an odd number of them under kind 2, which cannot say that the number is odd.
    pub fn global(selector: Selector, digits: Digits) -> Option<Title>
        ensures made { SomeIff result (selector.kind ≡ 2 → length digits % 2 ≡ 0) (Title.Global selector digits) }
        ensures kept { IfSome result (λ t. IsTitle t) }
    {
        // Only this call shows that there are at most 32.
        let _count = digits.len();
        if selector.kind() == 2 && digits.as_slice().len() % 2 == 1 {
            None
        } else {
            Some(Title::Global { selector, digits })
        }
    }

    // The same title in memory of its own.
    fn try_clone(&self, alloc: Global) -> Result<Title, OutOfMemory>
        ensures { IfOk result (λ copy. copy ≡ self.now) }
    {
        match self {
            Title::Absent => Ok(Title::Absent),
            Title::Global { selector, digits } => Ok(Title::Global {
                selector: *selector,
                digits: *digits,
            }),
            Title::Raw { kind, octets } => {
                let octets = octets.try_clone(alloc)?;
                Ok(Title::Raw {
                    kind: *kind,
                    octets,
                })
            }
        }
    }
}

impl Address {
    /// The same address in memory of its own.
    pub fn try_clone(&self, alloc: Global) -> Result<Address, OutOfMemory>
        ensures { IfOk result (λ copy. copy ≡ self.now) }
    {
        let title = self.title.try_clone(alloc)?;
        Ok(Address {
            national: self.national,
            by_ssn: self.by_ssn,
            pc: self.pc,
            ssn: self.ssn,
            title,
        })
    }
}

/// The selector of a title with digits. `None` for another title.
pub fn selector_of(address: &Address) -> Option<Selector>
    ensures { result ≡ selector_in address.now.title }
{
    match &address.title {
        Title::Global { selector, .. } => Some(*selector),
        _ => None,
    }
}

/// The digits of a title with digits. `None` for another title.
pub fn digits_of(address: &Address) -> Option<Digits>
    ensures { result ≡ digits_in address.now.title }
{
    match &address.title {
        Title::Global { digits, .. } => Some(*digits),
        _ => None,
    }
}
