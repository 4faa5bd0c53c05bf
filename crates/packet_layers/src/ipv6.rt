//! IPv6 packets (RFC 8200).
ghost use Rattle.std.specs.Prelude.{◌≡◌, ◌≤◌, length, map, IfOk, IfErr, Ok, Err};
ghost use Rattle.packet_layers.specs.Values.{found_as};
ghost use Rattle.packet_layers.specs.Layers.{after_extensions, extension, extension_size, fragment, ipv6, ipv6_size, is_extension};
ghost use Rattle.packet_layers.specs.Layers.{is_fragment};

use crate::fault::Fault;
use crate::found::Found;
use crate::ip::SCTP;
use crate::layer::Layer;
use crate::numbers::{after, front, number_2};
use crate::sctp::sctp;
use crate::single::single;
use sccp_base::{List, OutOfMemory};
use std::alloc::Global;

const HOP_BY_HOP: u8 = 0;

const ROUTING: u8 = 43;

const FRAGMENT: u8 = 44;

const AUTHENTICATION: u8 = 51;

const DESTINATION: u8 = 60;

// Whether a next header is one of the extension headers that are passed over.
#[tactic(auto, unfolding(crate::specs::Layers::is_extension))]
fn is_extension(kind: u8) -> bool
    ensures { result ≡ is_extension kind }
{
    kind == HOP_BY_HOP
        || kind == ROUTING
        || kind == DESTINATION
        || kind == FRAGMENT
        || kind == AUTHENTICATION
}

// The octets of an extension header.
#[tactic(auto, unfolding(crate::specs::Layers::extension_size))]
fn extension_size(kind: u8, octets: &[u8]) -> usize
    requires { 8 ≤ length octets.now }
    ensures { result ≡ extension_size kind octets.now }
{
    let own = usize::from(octets[1]);
    if kind == FRAGMENT {
        8
    } else if kind == AUTHENTICATION {
        4 * (own + 2)
    } else {
        8 * (own + 1)
    }
}

// Whether it is a fragment header with an offset, or after which more fragments come.
#[tactic(auto, unfolding(crate::specs::Layers::is_fragment))]
fn is_fragment(kind: u8, octets: &[u8]) -> bool
    requires { 8 ≤ length octets.now }
    ensures { result ≡ is_fragment kind octets.now }
{
    kind == FRAGMENT && (number_2(octets, 2) / 8 != 0 || octets[3] % 2 == 1)
}

// A fragment, which is not read if it carries SCTP.
#[tactic(auto, unfolding(crate::specs::Layers::fragment))]
fn fragment(octets: &[u8]) -> Found<'_>
    requires { 8 ≤ length octets.now }
    ensures { found_as result ≡ fragment octets.now }
{
    if octets[0] == SCTP {
        Found::Unread(Fault::Fragment)
    } else {
        Found::Other
    }
}

// The size of the extension header of this kind, or what the packet carries if there is none that can be passed over.
#[tactic(auto, unfolding(crate::specs::Layers::extension))]
fn extension(kind: u8, octets: &[u8]) -> Result<usize, Found<'_>>
    ensures ok { IfOk result (λ size. Ok size ≡ extension kind octets.now) }
    ensures err { IfErr result (λ found. Err (found_as found) ≡ extension kind octets.now) }
    ensures some { IfOk result (λ size. 8 ≤ length octets.now) }
{
    if !is_extension(kind) {
        return Err(Found::Other);
    }
    if octets.len() < 8 {
        return Err(Found::Unread(Fault::Short(Layer::Ipv6)));
    }
    if is_fragment(kind, octets) {
        return Err(fragment(octets));
    }
    let size = extension_size(kind, octets);
    if octets.len() < size {
        return Err(Found::Unread(Fault::Short(Layer::Ipv6)));
    }
    Ok(size)
}

// What is after the extension headers, of which there are at most the given number.
fn after_extensions<'a>(
    alloc: Global,
    most: usize,
    kind: u8,
    whole: usize,
    octets: &'a [u8],
) -> Result<List<Found<'a>>, OutOfMemory>
    ensures { IfOk result (λ list. map found_as list ≡ after_extensions most kind whole octets.now) }
{
    let mut kind = kind;
    let mut whole = whole;
    let mut left = octets;
    for i in 0..most {
        if kind == SCTP {
            return sctp(alloc, whole, left);
        }
        let size = match extension(kind, left) {
            Ok(size) => size,
            Err(found) => return single(alloc, found),
        };
        kind = left[0];
        whole = whole.saturating_sub(size);
        left = after(left, size);
    }
    single(alloc, Found::Other)
}

// The octets after the header that IP says.
#[tactic(auto, unfolding(crate::specs::Layers::ipv6_size))]
fn size(octets: &[u8]) -> usize
    requires { 40 ≤ length octets.now }
    ensures { result ≡ ipv6_size octets.now }
{
    let payload = usize::from(number_2(octets, 4));
    if payload == 0 {
        octets.len() - 40
    } else {
        payload
    }
}

/// An IPv6 packet. What is after its payload length is left out.
#[tactic(auto, unfolding(crate::specs::Layers::ipv6))]
pub fn ipv6<'a>(alloc: Global, octets: &'a [u8]) -> Result<List<Found<'a>>, OutOfMemory>
    ensures { IfOk result (λ list. map found_as list ≡ ipv6 octets.now) }
{
    if octets.len() < 40 {
        return single(alloc, Found::Unread(Fault::Short(Layer::Ipv6)));
    }
    if octets[0] / 16 != 6 {
        return single(alloc, Found::Unread(Fault::Bad(Layer::Ipv6)));
    }
    let whole = size(octets);
    after_extensions(
        alloc,
        octets.len(),
        octets[6],
        whole,
        front(&octets[40..], whole),
    )
}
