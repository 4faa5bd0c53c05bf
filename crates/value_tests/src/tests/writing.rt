//! What was read is written: messages and DATA messages that have octets to spare.
use sccp_base::Octets;
use sccp_layout::{join, split};
use sccp_message::canonical;
use std::alloc::Global;
use std::test::Fail;

/// A UDT of which each part follows the one before.
const UDT: &str = "0900030E120B1206001204947101000021044301080802AABB";
/// The same with two octets between the calling address and the data.
const UDT_WITH_A_GAP: &str = "0900030E140B12060012049471010000210443010808000002AABB";

/// What the parts of octets are put together to.
fn joined(alloc: Global, octets: &[u8]) -> Result<Octets, Fail> {
    let parts = split(alloc, octets)?;
    let octets = join(alloc, &parts);
    drop(parts);
    Ok(octets?)
}

/// Whether the parts of these octets are put together to those.
fn joins_to(alloc: Global, octets: &str, want: &str) -> Result<bool, Fail> {
    let octets = joined(alloc, &hex::decode(alloc, octets)?)?;
    Ok(hex::encode_upper(alloc, octets.as_slice())?.as_str() == want)
}

#[test]
fn parts_are_put_together(rt: HostRuntime) -> Result<(), Fail> {
    assert!(rt; joins_to(rt.alloc(), UDT, UDT)?);
    assert!(rt; joins_to(rt.alloc(), UDT_WITH_A_GAP, UDT)?);
    Ok(())
}

/// An XUDT with the parameters 10, 12 and 7F.
const XUDT: &str = "11000F0406080902420602420801AA1004810100001201037F015500";

fn is_canonical(alloc: Global, octets: &str) -> Result<bool, Fail> {
    Ok(canonical(alloc, &hex::decode(alloc, octets)?)?)
}

/// The last octets are of no known type.
#[test]
fn octets_may_be_canonical(rt: HostRuntime) -> Result<(), Fail> {
    assert!(rt; is_canonical(rt.alloc(), UDT)?);
    assert!(rt; !is_canonical(rt.alloc(), UDT_WITH_A_GAP)?);
    assert!(rt; is_canonical(rt.alloc(), XUDT)?);
    assert!(rt; !is_canonical(rt.alloc(), "1500")?);
    Ok(())
}

/// What is written of the DATA message that octets are.
fn written(alloc: Global, octets: &[u8]) -> Result<Octets, Fail> {
    let data = m3ua_data::decode(alloc, octets)?;
    let octets = m3ua_data::encode(alloc, &data);
    drop(data);
    Ok(octets?)
}

/// Whether that is what is written of it.
fn writes_to(alloc: Global, octets: &str, want: &str) -> Result<bool, Fail> {
    let octets = written(alloc, &hex::decode(alloc, octets)?)?;
    Ok(hex::encode_upper(alloc, octets.as_slice())?.as_str() == want)
}

/// A DATA message with FF in its reserved octet and as padding, and a length that leaves the padding out.
const DATA: &str = "01FF01010000001B02100013000008010000080203020005AABBCCFF";
/// The same, with 0 for each FF, and the padding counted.
const DATA_WRITTEN: &str = "010001010000001C02100013000008010000080203020005AABBCC00";

#[test]
fn data_messages_are_padded(rt: HostRuntime) -> Result<(), Fail> {
    assert!(rt; writes_to(rt.alloc(), DATA, DATA_WRITTEN)?);
    Ok(())
}
