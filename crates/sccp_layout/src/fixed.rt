//! Fields of the fixed part.
ghost use Rattle.std.specs.Prelude.{◌≡◌, ◌≤◌, ◌+◌, ◌↔◌, length, slice_range, IsSome, IfSome};

/// `N` octets, as a field of the fixed part has (Q.713 section 1).
#[derive(Clone, Copy)]
pub struct Fixed<const N: usize> {
    /// The octets, the first one in the message first.
    pub octets: [u8; N],
}

impl<const N: usize> Fixed<N> {
    /// The octets from a place on. `None` if fewer than `N` are there.
    pub fn take(octets: &[u8], place: usize) -> Option<Fixed<N>>
        ensures fits { IsSome result ↔ (place + N ≤ length octets.now) }
        ensures same { IfSome result (λ fixed. fixed.octets ≡ slice_range octets.now place (place + N)) }
    {
        let mut taken = [0; N];
        let source = octets.get(place..)?.get(..N)?;
        taken.copy_from_slice(source);
        Some(Fixed { octets: taken })
    }
}
