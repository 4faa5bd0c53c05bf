//! What a DATA message carries (RFC 4666 section 3.3.1).
ghost use Rattle.std.specs.Prelude.{◌≡◌};
ghost use Rattle.m3ua_data.specs.Carried.{carried_of, lent};

use crate::data::Data;
use crate::fields::{PROTOCOL_DATA, first};
use crate::numbers::number_4;
use crate::payload::Carried;

/// What the first protocol data carries. `None` exactly if no parameter is protocol data, or the first has fewer than 12
/// octets.
pub fn carried(value: &Data) -> Option<Carried<'_>>
    ensures { lent result ≡ carried_of value.now }
{
    let octets = first(value.params(), PROTOCOL_DATA)?;
    if octets.len() < 12 {
        return None;
    }
    Some(Carried {
        origin: number_4(octets, 0),
        destination: number_4(octets, 4),
        service: octets[8],
        payload: &octets[12..],
    })
}
