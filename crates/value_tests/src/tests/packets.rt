//! Packets of a capture.
use packet_layers::{Found, Transfer, found_in, m2pa};
use std::alloc::Global;
use std::test::Fail;

/// An SCTP packet of 128 octets: a SACK and two DATA chunks for M3UA.
const BUNDLED: &str = "0B590B5911223344325A05ED\
03000010000000090000FFFF00000000\
0003003800000005000000000000000301000101000000280210001D\
000008010000080203020005090003050702420602420801AA000000\
0003002C000000060000000000000003010001010000001C02100013\
00000801000008020502000501000500";

/// A message of MTP3 from 1-0-1 to 1-0-2 with a message of SCCP of 13 octets.
const LABELLED: &str = "8302480052090003050702420602420801AA";

/// The same in a message of M2PA.
const ADAPTED: &str = "01000B01000000230000000700000008008302480052090003050702420602420801AA";

/// Whether it is a whole user message for M3UA in a DATA chunk of this number, with this number of octets.
fn is_chunk(found: &Found<'_>, number: usize, tsn: u32, count: usize) -> bool {
    match found {
        Found::Chunk(own, value) => {
            *own == number
                && value.tsn == tsn
                && value.protocol == 3
                && value.begins
                && value.ends
                && value.payload.len() == count
        }
        _ => false,
    }
}

/// Whether these are the message's points, service and number of octets.
fn is_labelled(transfer: &Transfer<'_>) -> bool {
    transfer.origin == 2049
        && transfer.destination == 2050
        && transfer.service == 3
        && transfer.payload.len() == 13
}

/// Whether it is the message.
fn is_message(found: &Found<'_>) -> bool {
    match found {
        Found::Transfer(transfer) => is_labelled(transfer),
        _ => false,
    }
}

/// Whether these are what the SCTP packet carries.
fn are_bundled(found: &[Found<'_>]) -> bool {
    match found {
        [first, second, third] => {
            matches!(first, Found::Other) && is_chunk(second, 2, 5, 40) && is_chunk(third, 3, 6, 28)
        }
        _ => false,
    }
}

/// Whether the octets of the SCTP packet carry that.
fn has_bundled(alloc: Global) -> Result<bool, Fail> {
    let octets = hex::decode(alloc, BUNDLED)?;
    let found = found_in(alloc, 248, 128, &octets)?;
    Ok(are_bundled(found.as_slice()))
}

/// Whether the octets by the link of MTP3 are the message and nothing else.
fn has_message(alloc: Global) -> Result<bool, Fail> {
    let octets = hex::decode(alloc, LABELLED)?;
    let found = found_in(alloc, 141, 18, &octets)?;
    Ok(match found.as_slice() {
        [only] => is_message(only),
        _ => false,
    })
}

/// Whether the message of M2PA has the message.
fn has_adapted(alloc: Global) -> Result<bool, Fail> {
    let octets = hex::decode(alloc, ADAPTED)?;
    Ok(is_message(&m2pa(&octets)))
}

#[test]
fn packets_carry_chunks_and_messages(rt: HostRuntime) -> Result<(), Fail> {
    assert!(rt; has_bundled(rt.alloc())?);
    assert!(rt; has_message(rt.alloc())?);
    assert!(rt; has_adapted(rt.alloc())?);
    Ok(())
}
