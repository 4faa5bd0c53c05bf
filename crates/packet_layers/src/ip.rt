//! IPv4 packets (RFC 791).
ghost use Rattle.std.specs.Prelude.{◌≡◌, ◌≤◌, length, map, IfOk};
ghost use Rattle.packet_layers.specs.Values.{found_as};
ghost use Rattle.packet_layers.specs.Layers.{ip, ip_header, ip_size, is_ip};

use crate::fault::Fault;
use crate::found::Found;
use crate::layer::Layer;
use crate::numbers::{front, number_2};
use crate::sctp::sctp;
use crate::single::single;
use sccp_base::{List, OutOfMemory};
use std::alloc::Global;

/// The protocol number of SCTP.
pub const SCTP: u8 = 132;

// The octets of the header, by its header length.
fn header(octets: &[u8]) -> usize
    requires { 20 ≤ length octets.now }
    ensures exact { result ≡ ip_header octets.now }
    ensures few { result ≤ 60 }
{
    usize::from(octets[0] % 16) * 4
}

// Whether version, header length and total length are possible.
#[tactic(auto, unfolding(crate::specs::Layers::is_ip))]
fn is_ip(octets: &[u8]) -> bool
    requires { 20 ≤ length octets.now }
    ensures { result ≡ is_ip octets.now }
{
    let total = usize::from(number_2(octets, 2));
    let own = header(octets);
    octets[0] / 16 == 4 && own >= 20 && (total == 0 || total >= own)
}

// The octets after the header that IP says.
#[tactic(auto, unfolding(crate::specs::Layers::ip_size))]
fn size(octets: &[u8]) -> usize
    requires { 20 ≤ length octets.now }
    ensures { result ≡ ip_size octets.now }
{
    let total = usize::from(number_2(octets, 2));
    if total == 0 {
        octets.len().saturating_sub(header(octets))
    } else {
        total.saturating_sub(header(octets))
    }
}

/// An IPv4 packet. What is after its total length is left out.
#[tactic(auto, unfolding(crate::specs::Layers::ip))]
pub fn ip<'a>(alloc: Global, octets: &'a [u8]) -> Result<List<Found<'a>>, OutOfMemory>
    ensures { IfOk result (λ list. map found_as list ≡ ip octets.now) }
{
    if octets.len() < 20 {
        return single(alloc, Found::Unread(Fault::Short(Layer::Ip)));
    }
    if !is_ip(octets) {
        return single(alloc, Found::Unread(Fault::Bad(Layer::Ip)));
    }
    let own = header(octets);
    if octets.len() < own {
        return single(alloc, Found::Unread(Fault::Short(Layer::Ip)));
    }
    if octets[9] != SCTP {
        return single(alloc, Found::Other);
    }
    if number_2(octets, 6) % 16384 != 0 {
        return single(alloc, Found::Unread(Fault::Fragment));
    }
    let whole = size(octets);
    sctp(alloc, whole, front(&octets[own..], whole))
}
