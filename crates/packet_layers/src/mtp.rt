//! Messages of MTP (Q.703, section 2; Q.704, sections 2.2 and 14.2) and of SCCP.
ghost use Rattle.std.specs.Prelude.{◌≡◌, ◌≤◌, length};
ghost use Rattle.packet_layers.specs.Values.{found_as, transfer_as};
ghost use Rattle.packet_layers.specs.Layers.{mtp2, mtp3, sccp, transfer_of, unit_of, whole_mtp3};

use crate::fault::Fault;
use crate::found::Found;
use crate::layer::Layer;
use crate::numbers::little_4;
use crate::transfer::Transfer;

// A service information octet, a routing label of 32 bits, and the user's octets.
fn transfer_of(octets: &[u8]) -> Transfer<'_>
    requires { 5 ≤ length octets.now }
    ensures { transfer_as result ≡ transfer_of octets.now }
{
    let label = little_4(octets, 1);
    Transfer {
        origin: (label / 16384 % 16384) as u16,
        destination: (label % 16384) as u16,
        service: octets[0] % 16,
        payload: &octets[5..],
    }
}

/// A message of MTP3.
#[tactic(auto, unfolding(crate::specs::Layers::mtp3))]
pub fn mtp3(octets: &[u8]) -> Found<'_>
    ensures { found_as result ≡ mtp3 octets.now }
{
    if octets.len() < 5 {
        return Found::Unread(Fault::Short(Layer::Mtp3));
    }
    Found::Transfer(transfer_of(octets))
}

// A signal unit, by its length indicator.
#[tactic(auto, unfolding(crate::specs::Layers::unit_of))]
fn unit_of(indicator: u8, original: usize, octets: &[u8]) -> Found<'_>
    requires { 3 ≤ length octets.now }
    ensures { found_as result ≡ unit_of indicator original octets.now }
{
    if indicator < 3 {
        return Found::Other;
    }
    if indicator == 63 {
        if octets.len() < original || octets.len() < 66 {
            return Found::Unread(Fault::Short(Layer::Mtp2));
        }
        return mtp3(&octets[3..]);
    }
    let end = 3 + usize::from(indicator);
    if octets.len() < end {
        return Found::Unread(Fault::Short(Layer::Mtp2));
    }
    mtp3(&octets[3..end])
}

/// A signal unit of MTP2 that had this number of octets.
#[tactic(auto, unfolding(crate::specs::Layers::mtp2))]
pub fn mtp2(original: usize, octets: &[u8]) -> Found<'_>
    ensures { found_as result ≡ mtp2 original octets.now }
{
    if octets.len() < 3 {
        return Found::Unread(Fault::Short(Layer::Mtp2));
    }
    unit_of(octets[2] % 64, original, octets)
}

/// A message of MTP3 that had this number of octets.
#[tactic(auto, unfolding(crate::specs::Layers::whole_mtp3))]
pub fn whole_mtp3(original: usize, octets: &[u8]) -> Found<'_>
    ensures { found_as result ≡ whole_mtp3 original octets.now }
{
    if octets.len() < original {
        return Found::Unread(Fault::Short(Layer::Mtp3));
    }
    mtp3(octets)
}

/// A message of SCCP that had this number of octets.
#[tactic(auto, unfolding(crate::specs::Layers::sccp))]
pub fn sccp(original: usize, octets: &[u8]) -> Found<'_>
    ensures { found_as result ≡ sccp original octets.now }
{
    if octets.len() < original {
        return Found::Unread(Fault::Short(Layer::Sccp));
    }
    Found::Sccp(octets)
}
