//! Files that are changed at random.
ghost use Rattle.std.specs.Prelude.{◌≤◌};

use rand_core::{Rng, SeedableRng};
use rand_xoshiro::Xoshiro256PlusPlus;
use std::alloc::{AllocError, Global};

/// A number below this one, or 0 if none is.
fn below<R: Rng>(rng: &mut R, most: usize) -> usize
    ensures { result ≤ most }
{
    if most == 0 {
        0
    } else {
        (rng.next_u64() % most as u64) as usize
    }
}

/// An octet: mostly any, but often one of those at which lengths and counts break.
fn octet<R: Rng>(rng: &mut R) -> u8 {
    match rng.next_u32() % 8 {
        0 => 0,
        1 => 1,
        2 => 0x7F,
        3 => 0xFF,
        _ => (rng.next_u32() % 256) as u8,
    }
}

/// Puts another octet at a place, or turns one bit there.
fn change_at<R: Rng>(rng: &mut R, octets: &mut [u8], place: usize) {
    if let Some(at) = octets.get_mut(place) {
        *at = if rng.next_u32() % 2 == 0 {
            octet(rng)
        } else {
            *at ^ (1 << (rng.next_u32() % 8))
        };
    }
}

/// Makes one change: of an octet, of how many there are, or of where the file ends.
fn change<R: Rng>(rng: &mut R, octets: &mut Vec<u8>) -> Result<(), AllocError> {
    let place = below(rng, octets.len());
    match rng.next_u32() % 8 {
        0 => octets.truncate(place),
        1 => if place < octets.len() {
            octets.remove(place);
        },
        2 => octets.insert(place, octet(rng))?,
        _ => change_at(rng, octets.as_mut_slice(), place),
    }
    Ok(())
}

/// The octets with one to four changes, which this number decides.
pub(crate) fn changed(alloc: Global, octets: &[u8], number: u64) -> Result<Vec<u8>, AllocError> {
    let mut rng = Xoshiro256PlusPlus::seed_from_u64(number);
    let mut all = octets.to_vec(alloc)?;
    for _turn in 0..rng.next_u32() % 4 + 1 {
        change(&mut rng, &mut all)?;
    }
    Ok(all)
}
