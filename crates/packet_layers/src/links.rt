//! The links by which packets come, by the numbers of tcpdump's list of link types.
ghost use Rattle.std.specs.Prelude.{◌≡◌, All, map, IfOk};
ghost use Rattle.packet_layers.specs.Places.{IsIn};
ghost use Rattle.packet_layers.specs.Values.{found_as};
ghost use Rattle.packet_layers.specs.Layers.{by_family, by_type, loopback, loopback_2, cooked, cooked_2, ethernet, found_in, is_tag, raw};

use crate::fault::Fault;
use crate::found::Found;
use crate::ip::ip;
use crate::ipv6::ipv6;
use crate::layer::Layer;
use crate::mtp::{mtp2, sccp, whole_mtp3};
use crate::numbers::{after, little_4, number_2, number_4};
use crate::sctp::sctp;
use crate::single::single;
use sccp_base::{List, OutOfMemory};
use std::alloc::Global;

const IPV4: u16 = 0x0800;

const IPV6: u16 = 0x86DD;

// Whether a type is that of a tag of a virtual network (IEEE 802.1Q).
#[tactic(auto, unfolding(crate::specs::Layers::is_tag))]
fn is_tag(kind: u16) -> bool
    ensures { result ≡ is_tag kind }
{
    kind == 0x8100 || kind == 0x88A8 || kind == 0x9100
}

// What is after a type and after tags, of which there are at most the given number.
fn by_type<'a>(
    alloc: Global,
    most: usize,
    kind: u16,
    octets: &'a [u8],
) -> Result<List<Found<'a>>, OutOfMemory>
    ensures { IfOk result (λ list. map found_as list ≡ by_type most kind octets.now) }
{
    let mut kind = kind;
    let mut left = octets;
    for i in 0..most {
        if is_tag(kind) {
            if left.len() < 4 {
                return single(alloc, Found::Unread(Fault::Short(Layer::Ethernet)));
            }
            kind = number_2(left, 2);
            left = after(left, 4);
        } else if kind == IPV4 {
            return ip(alloc, left);
        } else if kind == IPV6 {
            return ipv6(alloc, left);
        } else {
            return single(alloc, Found::Other);
        }
    }
    single(alloc, Found::Other)
}

// An Ethernet frame (IEEE 802.3).
#[tactic(auto, unfolding(crate::specs::Layers::ethernet))]
fn ethernet<'a>(alloc: Global, octets: &'a [u8]) -> Result<List<Found<'a>>, OutOfMemory>
    ensures { IfOk result (λ list. map found_as list ≡ ethernet octets.now) }
{
    if octets.len() < 14 {
        return single(alloc, Found::Unread(Fault::Short(Layer::Ethernet)));
    }
    by_type(alloc, octets.len(), number_2(octets, 12), &octets[14..])
}

// A Linux cooked capture, of its first version.
#[tactic(auto, unfolding(crate::specs::Layers::cooked))]
fn cooked<'a>(alloc: Global, octets: &'a [u8]) -> Result<List<Found<'a>>, OutOfMemory>
    ensures { IfOk result (λ list. map found_as list ≡ cooked octets.now) }
{
    if octets.len() < 16 {
        return single(alloc, Found::Unread(Fault::Short(Layer::Cooked)));
    }
    by_type(alloc, octets.len(), number_2(octets, 14), &octets[16..])
}

// A Linux cooked capture, of its second version.
#[tactic(auto, unfolding(crate::specs::Layers::cooked_2))]
fn cooked_2<'a>(alloc: Global, octets: &'a [u8]) -> Result<List<Found<'a>>, OutOfMemory>
    ensures { IfOk result (λ list. map found_as list ≡ cooked_2 octets.now) }
{
    if octets.len() < 20 {
        return single(alloc, Found::Unread(Fault::Short(Layer::Cooked)));
    }
    by_type(alloc, octets.len(), number_2(octets, 0), &octets[20..])
}

// What is after the address family of a BSD loopback.
#[tactic(auto, unfolding(crate::specs::Layers::by_family))]
fn by_family<'a>(
    alloc: Global,
    family: u32,
    octets: &'a [u8],
) -> Result<List<Found<'a>>, OutOfMemory>
    ensures { IfOk result (λ list. map found_as list ≡ by_family family octets.now) }
{
    match family {
        2 => ip(alloc, octets),
        24 | 28 | 30 => ipv6(alloc, octets),
        _ => single(alloc, Found::Other),
    }
}

// A BSD loopback, with the family in the order of the machine that captured it.
#[tactic(auto, unfolding(crate::specs::Layers::loopback))]
fn loopback<'a>(alloc: Global, octets: &'a [u8]) -> Result<List<Found<'a>>, OutOfMemory>
    ensures { IfOk result (λ list. map found_as list ≡ loopback octets.now) }
{
    if octets.len() < 4 {
        return single(alloc, Found::Unread(Fault::Short(Layer::Loopback)));
    }
    let family = little_4(octets, 0);
    if family < 65536 {
        by_family(alloc, family, &octets[4..])
    } else {
        by_family(alloc, number_4(octets, 0), &octets[4..])
    }
}

// A BSD loopback, with the most significant octet of the family first.
#[tactic(auto, unfolding(crate::specs::Layers::loopback_2))]
fn loopback_2<'a>(alloc: Global, octets: &'a [u8]) -> Result<List<Found<'a>>, OutOfMemory>
    ensures { IfOk result (λ list. map found_as list ≡ loopback_2 octets.now) }
{
    if octets.len() < 4 {
        return single(alloc, Found::Unread(Fault::Short(Layer::Loopback)));
    }
    by_family(alloc, number_4(octets, 0), &octets[4..])
}

// IP of either version.
#[tactic(auto, unfolding(crate::specs::Layers::raw))]
fn raw<'a>(alloc: Global, octets: &'a [u8]) -> Result<List<Found<'a>>, OutOfMemory>
    ensures { IfOk result (λ list. map found_as list ≡ raw octets.now) }
{
    if octets.is_empty() {
        return single(alloc, Found::Unread(Fault::Short(Layer::Ip)));
    }
    let version = octets[0] / 16;
    if version == 4 {
        ip(alloc, octets)
    } else if version == 6 {
        ipv6(alloc, octets)
    } else {
        single(alloc, Found::Unread(Fault::Bad(Layer::Ip)))
    }
}

// What a packet carries, by its link.
#[tactic(auto, unfolding(crate::specs::Layers::found_in))]
fn by_link<'a>(
    alloc: Global,
    link: u16,
    original: usize,
    octets: &'a [u8],
) -> Result<List<Found<'a>>, OutOfMemory>
    ensures { IfOk result (λ list. map found_as list ≡ found_in link original octets.now) }
{
    match link {
        1 => ethernet(alloc, octets),
        113 => cooked(alloc, octets),
        276 => cooked_2(alloc, octets),
        101 | 12 | 14 => raw(alloc, octets),
        0 => loopback(alloc, octets),
        108 => loopback_2(alloc, octets),
        228 => ip(alloc, octets),
        229 => ipv6(alloc, octets),
        248 => sctp(alloc, original.max(octets.len()), octets),
        142 => single(alloc, sccp(original, octets)),
        141 => single(alloc, whole_mtp3(original, octets)),
        140 => single(alloc, mtp2(original, octets)),
        _ => single(alloc, Found::Unread(Fault::Link(link))),
    }
}

/// What the octets of a packet carry, in their order. The packet came by this link and had the original number of octets
/// before it was captured, so the octets may be only its first ones.
///
/// `octets` begin with the header of the link: Ethernet (1), Linux cooked (113, 276), BSD loopback (0, 108), IP of either
/// version (12, 14, 101), IPv4 (228), IPv6 (229), SCTP (248), MTP2 (140), MTP3 (141) or SCCP (142). Any other link gives
/// `Fault::Link`. The only error is want of memory.
pub fn found_in<'a>(
    alloc: Global,
    link: u16,
    original: u32,
    octets: &'a [u8],
) -> Result<List<Found<'a>>, OutOfMemory>
    ensures exact { IfOk result (λ list. map found_as list ≡ found_in link original octets.now) }
    ensures is_in { IfOk result (λ list. All (IsIn octets.now) (map found_as list)) }
{
    by_link(alloc, link, original as usize, octets)
}
