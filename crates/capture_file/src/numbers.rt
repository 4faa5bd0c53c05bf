//! Numbers in octets, in either order.
ghost use Rattle.std.specs.Prelude.{◌≡◌, ◌≤◌, ◌+◌, length};
ghost use Rattle.capture_file.specs.Numbers.{number_2, number_4};

use crate::order::Order;

/// The number of the two octets at a place, which both must be there.
pub fn number_2(order: Order, octets: &[u8], place: usize) -> u16
    requires { place + 2 ≤ length octets.now }
    ensures { result ≡ number_2 order octets.now place }
{
    let two = [octets[place], octets[place + 1]];
    match order {
        Order::Big => u16::from_be_bytes(two),
        Order::Little => u16::from_le_bytes(two),
    }
}

/// The number of the four octets at a place, which all must be there.
pub fn number_4(order: Order, octets: &[u8], place: usize) -> u32
    requires { place + 4 ≤ length octets.now }
    ensures { result ≡ number_4 order octets.now place }
{
    let four = [
        octets[place],
        octets[place + 1],
        octets[place + 2],
        octets[place + 3],
    ];
    match order {
        Order::Big => u32::from_be_bytes(four),
        Order::Little => u32::from_le_bytes(four),
    }
}
