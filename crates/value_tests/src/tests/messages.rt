//! Messages that no command can read, and what a message is asked beyond its text.
use sccp_address::{Address, Title};
use sccp_base::{Digits, List, Octets, OutOfMemory, PointCode, Selector};
use sccp_layout::{Fixed, Layout, Param, layout};
use sccp_message::{EncodeFault, Message, encode, param, wants_return};
use sccp_report::message_text;
use std::alloc::Global;
use std::test::Fail;

#[test]
fn no_octets_are_no_message(rt: HostRuntime) -> Result<(), Fail> {
    let text = message_text(rt.alloc(), &[])?;
    assert_eq!(rt; text.as_slice(), b"undecodable short\n".as_slice());
    Ok(())
}

#[test]
fn layouts_are_those_of_the_standard(rt: HostRuntime) {
    for code in [0x00, 0x15, 0xFF] {
        assert!(rt; layout(code).is_none(), "at {code}");
    }
    // IT has the longest fixed part; LUDT and LUDTS have long pointers
    for (code, fixed, variable, optional, long) in [
        (0x10, 10, 0, false, false),
        (0x13, 2, 3, true, true),
        (0x14, 2, 3, true, true),
    ] {
        let want = Layout {
            fixed,
            variable,
            optional,
            long,
        };
        assert_eq!(rt; layout(code), Some(want), "at {code}");
    }
}

#[test]
fn fixed_octets_are_taken_where_they_fit(rt: HostRuntime) {
    let octets = [0x05, 0x11, 0x00, 0x00, 0x01, 0x00, 0x00];
    let taken: Option<Fixed<3>> = Fixed::take(&octets, 4);
    assert_eq!(rt; taken.map(|fixed| fixed.octets), Some([0x01, 0x00, 0x00]));
    let beyond: Option<Fixed<3>> = Fixed::take(&octets, 5);
    assert!(rt; beyond.is_none());
}

/// Bits 5 to 8 of the class octet ask for a return by 1000.
#[test]
fn a_return_is_asked_for(rt: HostRuntime) {
    for (class, want) in [
        (0x00, false),
        (0x80, true),
        (0x81, true),
        (0x90, false),
        (0x08, false),
    ] {
        assert_eq!(rt; wants_return(class), want, "at {class}");
    }
}

/// The parameters 7F without octets, 12 with 05, and 12 without.
fn repeated(alloc: Global) -> Result<List<Param>, OutOfMemory> {
    let mut params = List::new(alloc);
    let mut five = Octets::new(alloc);
    five.push(0x05)?;
    for (name, octets) in [
        (0x7F, Octets::new(alloc)),
        (0x12, five),
        (0x12, Octets::new(alloc)),
    ] {
        if let Some(param) = Param::new(name, octets) {
            params.push(param)?;
        }
    }
    Ok(params)
}

#[test]
fn the_first_of_a_name_counts(rt: HostRuntime) -> Result<(), Fail> {
    let params = repeated(rt.alloc())?;
    assert!(rt; matches!(param(&params, 0x12), Some([0x05])));
    assert!(rt; matches!(param(&params, 0x7F), Some([])));
    assert!(rt; param(&params, 0x0F).is_none());
    Ok(())
}

/// A title of kind 2 has an even number of digits.
#[test]
fn titles_of_kind_two_are_even(rt: HostRuntime) -> Result<(), Fail> {
    let selector = Selector::new(2, 9, 0, 0).ok_or("a selector")?;
    for (digits, even) in [("123", false), ("1234", true)] {
        let digits = Digits::parse(digits.as_bytes())?;
        assert_eq!(rt; Title::global(selector, digits).is_some(), even);
    }
    Ok(())
}

fn by_number(ssn: u8) -> Address {
    Address {
        national: false,
        by_ssn: true,
        pc: None,
        ssn: Some(ssn),
        title: Title::Absent,
    }
}

/// An address of subsystem 6 with these digits.
fn by_digits(digits: &str) -> Result<Address, Fail> {
    let selector = Selector::new(4, 0, 1, 4).ok_or("a selector")?;
    let digits = Digits::parse(digits.as_bytes())?;
    Ok(Address {
        national: false,
        by_ssn: false,
        pc: None,
        ssn: Some(6),
        title: Title::Global { selector, digits },
    })
}

fn octets(alloc: Global, count: usize) -> Result<Octets, OutOfMemory> {
    Ok(Octets::from_vec(vec![in alloc; 0x55; count]?))
}

/// The fault of writing a message, which nobody wants any more.
fn fault_of(alloc: Global, message: Message) -> Option<EncodeFault> {
    let fault = encode(alloc, &message).err();
    drop(message);
    fault
}

/// The fault of a UDT with this number of octets of data.
fn fault_of_udt(alloc: Global, count: usize) -> Result<Option<EncodeFault>, OutOfMemory> {
    let message = Message::Udt {
        class: 0,
        called: by_number(6),
        calling: by_number(8),
        payload: octets(alloc, count)?,
    };
    Ok(fault_of(alloc, message))
}

/// The fault of an LUDT with this number of octets of data.
fn fault_of_ludt(alloc: Global, count: usize) -> Result<Option<EncodeFault>, OutOfMemory> {
    let message = Message::Ludt {
        class: 0,
        hops: 15,
        called: by_number(6),
        calling: by_number(8),
        payload: octets(alloc, count)?,
        params: List::new(alloc),
    };
    Ok(fault_of(alloc, message))
}

#[test]
fn data_may_be_too_long(rt: HostRuntime) -> Result<(), Fail> {
    let alloc = rt.alloc();
    assert_eq!(rt; fault_of_udt(alloc, 255)?, None);
    assert_eq!(rt; fault_of_udt(alloc, 256)?, Some(EncodeFault::TooLong(2)));
    assert_eq!(rt; fault_of_ludt(alloc, 65_535)?, None);
    assert_eq!(rt;
        fault_of_ludt(alloc, 65_536)?,
        Some(EncodeFault::TooLong(2))
    );
    Ok(())
}

/// The parameter 7F, of this number of octets.
fn one_parameter(alloc: Global, count: usize) -> Result<List<Param>, OutOfMemory> {
    let mut params = List::new(alloc);
    if let Some(param) = Param::new(0x7F, octets(alloc, count)?) {
        params.push(param)?;
    }
    Ok(params)
}

/// The fault of an XUDT to these digits. It has a calling address of four octets, 230 octets of data and one parameter of
/// this number of octets.
fn fault_of_xudt(alloc: Global, digits: &str, count: usize) -> Result<Option<EncodeFault>, Fail> {
    let payload = octets(alloc, 230)?;
    let params = one_parameter(alloc, count)?;
    let called = by_digits(digits)?;
    Ok(fault_of(
        alloc,
        Message::Xudt {
            class: 0,
            hops: 15,
            called,
            calling: Address {
                pc: PointCode::new(2049),
                ..by_number(8)
            },
            payload,
            params,
        },
    ))
}

/// Digits, how many octets the parameter has, and the fault.
const XUDTS: [(&str, usize, Option<EncodeFault>); 6] = [
    ("444444444444444444444444", 1, None),
    (
        "4444444444444444444444444",
        1,
        Some(EncodeFault::PointerTooFar(3)),
    ),
    (
        "44444444444444444444444444",
        1,
        Some(EncodeFault::PointerTooFar(3)),
    ),
    (
        "4444444444444444444444444444",
        1,
        Some(EncodeFault::PointerTooFar(3)),
    ),
    ("4", 255, None),
    (
        "4444444444444444444444444444",
        256,
        Some(EncodeFault::TooLong(3)),
    ),
];

/// The place of the first of these with another fault.
fn first_other(
    alloc: Global,
    messages: &[(&str, usize, Option<EncodeFault>)],
) -> Result<Option<usize>, Fail> {
    for (place, (digits, count, want)) in messages.iter().enumerate() {
        if fault_of_xudt(alloc, digits, *count)? != *want {
            return Ok(Some(place));
        }
    }
    Ok(None)
}

/// The pointer to the optional part reaches 255 octets. A part that is too long is reported before a pointer that is too far.
#[test]
fn the_optional_part_may_be_too_far(rt: HostRuntime) -> Result<(), Fail> {
    assert_eq!(rt; first_other(rt.alloc(), &XUDTS)?, None);
    Ok(())
}
