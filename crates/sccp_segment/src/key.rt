//! The keys by which a pool knows which segments belong together.
ghost use Rattle.std.specs.Prelude.{◌≡◌};
ghost use Rattle.sccp_segment.specs.Keys.{same_address, same_flag, same_key, same_number, same_title};

use sccp_address::{Address, Title};
use sccp_base::{PointCode, Reference};

/// What the segments of one message have in common, and share with no other message under way (Q.714 section 4.1). It is the
/// calling address, compared as a value, and the segmentation local reference.
#[derive(Drop)]
pub struct Key {
    pub calling: Address,
    pub reference: Reference,
}

// Whether two addresses have the same point code, or none.
fn same_point(a: &Option<PointCode>, b: &Option<PointCode>) -> bool
    ensures { result ≡ same_number a.now b.now }
{
    match (a, b) {
        (None, None) => true,
        (Some(a), Some(b)) => a.value() == b.value(),
        _ => false,
    }
}

// Whether they have the same subsystem number, or none.
fn same_ssn(a: &Option<u8>, b: &Option<u8>) -> bool
    ensures { result ≡ same_number a.now b.now }
{
    match (a, b) {
        (None, None) => true,
        (Some(a), Some(b)) => *a == *b,
        _ => false,
    }
}

// Whether two global titles are the same.
fn same_title(a: &Title, b: &Title) -> bool
    ensures { result ≡ same_title a.now b.now }
{
    match (a, b) {
        (Title::Absent, Title::Absent) => true,
        (
            Title::Global { selector, digits },
            Title::Global {
                selector: other,
                digits: others,
            },
        ) => *selector == *other && digits.as_slice() == others.as_slice(),
        (
            Title::Raw { kind, octets },
            Title::Raw {
                kind: other,
                octets: others,
            },
        ) => *kind == *other && octets.as_slice() == others.as_slice(),
        _ => false,
    }
}

// Whether two addresses are the same.
#[tactic(auto, unfolding(crate::specs::Keys::same_address))]
fn same_address(a: &Address, b: &Address) -> bool
    ensures { result ≡ same_address a.now b.now }
{
    a.national == b.national
        && a.by_ssn == b.by_ssn
        && same_point(&a.pc, &b.pc)
        && same_ssn(&a.ssn, &b.ssn)
        && same_title(&a.title, &b.title)
}

/// Whether two keys are the same.
#[tactic(auto, unfolding(crate::specs::Keys::same_key))]
pub fn same_key(a: &Key, b: &Key) -> bool
    ensures { result ≡ same_key a.now b.now }
{
    a.reference.value() == b.reference.value() && same_address(&a.calling, &b.calling)
}
