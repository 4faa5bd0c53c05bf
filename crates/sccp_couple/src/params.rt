//! Optional parameters of a message that goes on, with the hop counter counted.
ghost use Rattle.std.specs.Prelude.{◌≡◌, ◌&&◌, ◌==◌, if◌then◌else◌, slice_index, IfOk};
ghost use Rattle.sccp_layout.specs.Parameter.{parameter};
ghost use Rattle.sccp_layout.specs.Table as names;
ghost use Rattle.sccp_couple.specs.Ways.{counted, count_first};

use sccp_base::{List, Octets, OutOfMemory};
use sccp_layout::Param;
use sccp_scrc::one_less;
use std::alloc::Global;

/// The name code of the hop counter (Q.713 section 3.18).
pub(crate) const HOPS: u8 = 0x11;

/// The first octet of the contents, or 0 if there is none.
pub(crate) fn first_octet(octets: &[u8]) -> u8
    ensures { result ≡ slice_index octets.now 0 }
{
    match octets.first() {
        Some(octet) => *octet,
        None => 0,
    }
}

/// The hop counter, one less.
fn counted(alloc: Global, param: &Param) -> Result<Param, OutOfMemory>
    ensures { IfOk result (λ copy. copy ≡ parameter param.now.name (counted param.now.octets)) }
{
    let mut octets = Octets::new(alloc);
    octets.push(one_less(first_octet(param.octets())))?;
    Ok(Param::new(param.name(), octets).unwrap())
}

/// The parameter as it goes on: one less if it is the first hop counter.
fn next_of(alloc: Global, param: &Param, is_first: bool) -> Result<Param, OutOfMemory>
    ensures { IfOk result (λ next. next ≡ (if is_first && (param.now.name == names.hops)
        then parameter param.now.name (counted param.now.octets) else param.now)) }
{
    if is_first && param.name() == HOPS {
        counted(alloc, param)
    } else {
        param.try_clone(alloc)
    }
}

/// The parameters, with the first hop counter one less.
pub(crate) fn count_first(alloc: Global, params: &List<Param>) -> Result<List<Param>, OutOfMemory>
    ensures { IfOk result (λ copy. copy ≡ count_first params.now) }
{
    let mut copy = List::new(alloc);
    let mut is_first = true;
    for param in params.as_slice() {
        copy.push(next_of(alloc, param, is_first)?)?;
        is_first = is_first && param.name() != HOPS;
    }
    Ok(copy)
}
