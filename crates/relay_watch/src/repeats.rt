//! Arrivals that are the same as earlier ones, as far as it matters for what their relays send.
ghost use Rattle.std.specs.Prelude.{◌≡◌, true};
ghost use Rattle.relay_watch.specs.Repeats.{IsSame, IsRepeat};

use crate::hints::Hints;
use crate::waiting::Waiting;

/// Whether two arrivals are at one relay, from one point, and have the same octets and data.
fn is_same(one: &Waiting, other: &Waiting) -> bool
    ensures { result ≡ true → IsSame one.now other.now }
{
    if one.node != other.node {
        return false;
    }
    if one.origin != other.origin {
        return false;
    }
    if one.octets.as_slice() != other.octets.as_slice() {
        return false;
    }
    one.payload.as_slice() == other.payload.as_slice()
}

/// Whether the earlier arrival at a place is there and is the same as this one.
fn is_at(earlier: &[Waiting], place: usize, arrival: &Waiting) -> bool
    ensures { result ≡ true → IsRepeat earlier.now arrival.now }
{
    if earlier.len() <= place {
        return false;
    }
    is_same(&earlier[place], arrival)
}

/// Whether an earlier arrival at one of the hinted places is the same.
pub(crate) fn is_repeat(earlier: &[Waiting], arrival: &Waiting, hints: &Hints) -> bool
    ensures { result ≡ true → IsRepeat earlier.now arrival.now }
{
    for place in hints.places() {
        if is_at(earlier, *place, arrival) {
            return true;
        }
    }
    false
}
