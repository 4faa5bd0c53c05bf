//! Messages of M2PA (RFC 4165, section 2).
ghost use Rattle.std.specs.Prelude.{◌≡◌, ◌≤◌, length};
ghost use Rattle.packet_layers.specs.Layers.{is_m2pa, m2pa};
ghost use Rattle.packet_layers.specs.Places.{IsIn};
ghost use Rattle.packet_layers.specs.Values.{found_as};

use crate::fault::Fault;
use crate::found::Found;
use crate::layer::Layer;
use crate::mtp::mtp3;
use crate::numbers::number_4;

// The type of User Data.
const USER_DATA: u8 = 1;

// Whether version, class and length are those of a message that is wholly there.
#[tactic(auto, unfolding(crate::specs::Layers::is_m2pa))]
fn is_m2pa(octets: &[u8]) -> bool
    requires { 16 ≤ length octets.now }
    ensures { result ≡ is_m2pa octets.now }
{
    let size = number_4(octets, 4) as usize;
    octets[0] == 1 && octets[2] == 11 && size >= 16 && size <= octets.len()
}

// The message, by the one definition of what is found.
#[tactic(auto, unfolding(crate::specs::Layers::m2pa, crate::specs::Layers::is_m2pa))]
fn exact(octets: &[u8]) -> Found<'_>
    ensures { found_as result ≡ m2pa octets.now }
{
    if octets.len() < 16 {
        return Found::Unread(Fault::Short(Layer::M2pa));
    }
    if !is_m2pa(octets) {
        return Found::Unread(Fault::Bad(Layer::M2pa));
    }
    if octets[3] != USER_DATA {
        return Found::Other;
    }
    let size = number_4(octets, 4) as usize;
    if size < 17 {
        return Found::Other;
    }
    mtp3(&octets[17..size])
}

/// A message of M2PA: the user message of SCTP with payload protocol 5 (RFC 4165, section 1.3). It is a message of MTP3 with
/// its point codes, or a fault; or something else, if it reports the status of the link or has no data.
pub fn m2pa(octets: &[u8]) -> Found<'_>
    ensures exact { found_as result ≡ m2pa octets.now }
    ensures is_in { IsIn octets.now (found_as result) }
{
    exact(octets)
}
