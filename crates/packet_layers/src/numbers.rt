//! Numbers in octets, and parts of octets.
ghost use Rattle.std.specs.Prelude.{◌≡◌, ◌≤◌, ◌<◌, ◌+◌, ◌^◌, length, take, drop};
ghost use Rattle.packet_layers.specs.Numbers.{number_2, number_4, little_4, up_to_four};

/// The number of the two octets at a place, the most significant octet first.
pub fn number_2(octets: &[u8], place: usize) -> u16
    requires { place + 2 ≤ length octets.now }
    ensures { result ≡ number_2 octets.now place }
{
    u16::from_be_bytes([octets[place], octets[place + 1]])
}

/// The number of the four octets at a place, the most significant octet first.
pub fn number_4(octets: &[u8], place: usize) -> u32
    requires { place + 4 ≤ length octets.now }
    ensures { result ≡ number_4 octets.now place }
{
    u32::from_be_bytes([
        octets[place],
        octets[place + 1],
        octets[place + 2],
        octets[place + 3],
    ])
}

/// The number of the four octets at a place, the least significant octet first.
pub fn little_4(octets: &[u8], place: usize) -> u32
    requires { place + 4 ≤ length octets.now }
    ensures { result ≡ little_4 octets.now place }
{
    u32::from_le_bytes([
        octets[place],
        octets[place + 1],
        octets[place + 2],
        octets[place + 3],
    ])
}

/// The least multiple of four from a number on.
pub fn up_to_four(n: usize) -> usize
    requires { n < 2 ^ 63 }
    ensures { result ≡ up_to_four n }
{
    (n + 3) / 4 * 4
}

/// At most so many octets from the front.
pub fn front(octets: &[u8], count: usize) -> &[u8]
    ensures { result.now ≡ take count octets.now }
{
    if count <= octets.len() {
        &octets[..count]
    } else {
        octets
    }
}

/// The octets after so many, if there are more.
pub fn after(octets: &[u8], count: usize) -> &[u8]
    ensures { result.now ≡ drop count octets.now }
{
    if count <= octets.len() {
        &octets[count..]
    } else {
        &[]
    }
}
