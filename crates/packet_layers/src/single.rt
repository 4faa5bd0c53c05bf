//! What a packet carries, as a list of one.
ghost use Rattle.std.specs.Prelude.{◌≡◌, [], ◌∷◌, IfOk, map};
ghost use Rattle.packet_layers.specs.Values.{found_as};

use crate::found::Found;
use sccp_base::{List, OutOfMemory};
use std::alloc::Global;

/// The list of this alone.
pub fn single<'a>(alloc: Global, found: Found<'a>) -> Result<List<Found<'a>>, OutOfMemory>
    ensures { IfOk result (λ list. map found_as list ≡ found_as found.entry ∷ []) }
{
    let mut list = List::new(alloc);
    list.push(found)?;
    Ok(list)
}
