//! The messages that are made from a number.
ghost use Rattle.std.specs.Prelude.{◌≡◌};
ghost use Rattle.made_load.specs.Draws.{after_digits};
ghost use Rattle.made_load.specs.Messages.{made_octets, origin};

use crate::draws::Draws;
use sccp_base::PointCode;

/// The number of octets of each message.
pub(crate) const LENGTH: usize = 26;

/// The point from which the messages arrive.
pub(crate) fn origin() -> PointCode
    ensures { result ≡ origin }
{
    match PointCode::new(6145) {
        Some(point) => point,
        None => unreachable!(),
    }
}

/// The octets of the message at a place, whose digits are drawn (Q.713 section 4.10). It has a class that asks for return,
/// three pointers, the called address with its title, the calling address, and the place as data.
#[tactic(auto, unfolding(crate::specs::Messages::made_octets))]
pub(crate) fn made_octets(place: u32, draws: &mut Draws) -> [u8; LENGTH]
    ensures value { result ≡ made_octets place draws.old }
    ensures next { draws.new ≡ after_digits 10 draws.old }
{
    let first = draws.pair();
    let second = draws.pair();
    let third = draws.pair();
    let fourth = draws.pair();
    let fifth = draws.pair();
    [
        0x09,
        0x80,
        3,
        13,
        17,
        // The called address: no point code, a subsystem number, and a title of kind 4.
        10,
        0x12,
        6,
        0,
        0x12,
        4,
        first,
        second,
        third,
        fourth,
        fifth,
        // The calling address, to which the message is returned: the point 3-0-1 and its subsystem 8.
        4,
        0x43,
        0x01,
        0x18,
        8,
        // The place, the high octet first.
        4,
        (place / 16_777_216) as u8,
        (place / 65_536 % 256) as u8,
        (place / 256 % 256) as u8,
        (place % 256) as u8,
    ]
}
