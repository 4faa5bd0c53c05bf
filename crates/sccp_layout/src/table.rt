//! The table of the types of message.
ghost use Rattle.std.specs.Prelude.{◌≡◌, ◌<◌, ◌≤◌, ◌↔◌, IsSome};
ghost use Rattle.sccp_layout.specs.Table.{layout_of, short_layout, long_layout};

use crate::shape::Layout;

// A layout whose pointers and lengths have one octet.
fn short(fixed: u8, variable: u8, optional: bool) -> Option<Layout>
    ensures { result ≡ short_layout fixed variable optional }
{
    Some(Layout {
        fixed,
        variable,
        optional,
        long: false,
    })
}

// A layout whose pointers, and the length of its data, have two octets.
fn long(fixed: u8, variable: u8, optional: bool) -> Option<Layout>
    ensures { result ≡ long_layout fixed variable optional }
{
    Some(Layout {
        fixed,
        variable,
        optional,
        long: true,
    })
}

/// The parts of the type of message with this code (Q.713 section 4). `None` outside 01 to 14 hexadecimal.
pub fn layout(code: u8) -> Option<Layout>
    ensures value { result ≡ layout_of code }
    ensures known { IsSome result ↔ ((1 ≤ code) × (code ≤ 20)) }
{
    match code {
        0x01 => short(4, 1, true), // CR
        0x02 => short(7, 0, true), // CC
        0x03 => short(4, 0, true), // CREF
        0x04 => short(7, 0, true), // RLSD
        0x05 => short(6, 0, false), // RLC
        0x06 => short(4, 1, false), // DT1
        0x07 => short(5, 1, false), // DT2
        0x08 => short(5, 0, false), // AK
        0x09 => short(1, 3, false), // UDT
        0x0A => short(1, 3, false), // UDTS
        0x0B => short(3, 1, false), // ED
        0x0C => short(3, 0, false), // EA
        0x0D => short(7, 0, false), // RSR
        0x0E => short(6, 0, false), // RSC
        0x0F => short(4, 0, false), // ERR
        0x10 => short(10, 0, false), // IT
        0x11 => short(2, 3, true), // XUDT
        0x12 => short(2, 3, true), // XUDTS
        0x13 => long(2, 3, true), // LUDT
        0x14 => long(2, 3, true), // LUDTS
        _ => None,
    }
}
