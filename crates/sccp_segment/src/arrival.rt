//! The segments that messages are, each with the key of its message.
ghost use Rattle.std.specs.Prelude.{◌≡◌, ◌+◌, ◌*◌, true, IfOk};
ghost use Rattle.sccp_layout.specs.Table.{segmentation};
ghost use Rattle.sccp_message.specs.Fields.{param, reads_if};
ghost use Rattle.sccp_segment.specs.Segments.{arrival_by};

use crate::key::Key;
use crate::segment::Segment;
use sccp_address::Address;
use sccp_base::{List, Octets, OutOfMemory, Reference};
use sccp_layout::Param;
use sccp_message::{Message, param};
use std::alloc::Global;

// The name of the segmentation parameter (Q.713 section 3.17).
const SEGMENTATION: u8 = 0x10;

/// A segment, and the key of its message.
#[derive(Drop)]
pub struct Arrival {
    pub key: Key,
    pub segment: Segment,
}

impl Arrival {
    ghost use Rattle.std.specs.Prelude.{◌≡◌};
    ghost use Rattle.sccp_message.specs.Written.{Sound};
    ghost use Rattle.sccp_segment.specs.Segments.{arrival_of};

    /// The segment that a sound message is, by its calling address, its data and its segmentation parameter (Q.713 section
    /// 3.17). `None` for a message without that parameter, and for a message of a type that does not have it.
    pub fn of(message: Message) -> Option<Arrival>
        requires { Sound message }
        ensures { result ≡ arrival_of message }
    {
        match message {
            Message::Xudt {
                calling,
                payload,
                params,
                ..
            } => by(calling, payload, &params),
            Message::Xudts {
                calling,
                payload,
                params,
                ..
            } => by(calling, payload, &params),
            Message::Ludt {
                calling,
                payload,
                params,
                ..
            } => by(calling, payload, &params),
            Message::Ludts {
                calling,
                payload,
                params,
                ..
            } => by(calling, payload, &params),
            other => {
                drop(other);
                None
            }
        }
    }

    /// The same of a message that stays with its owner: if it is a segment, its calling address and its data are copied.
    pub fn copied(alloc: Global, message: &Message) -> Result<Option<Arrival>, OutOfMemory>
        requires { Sound message.now }
        ensures { IfOk result (λ arrival. arrival ≡ arrival_of message.now) }
    {
        match message {
            Message::Xudt {
                calling,
                payload,
                params,
                ..
            } => copied_by(alloc, calling, payload, params),
            Message::Xudts {
                calling,
                payload,
                params,
                ..
            } => copied_by(alloc, calling, payload, params),
            Message::Ludt {
                calling,
                payload,
                params,
                ..
            } => copied_by(alloc, calling, payload, params),
            Message::Ludts {
                calling,
                payload,
                params,
                ..
            } => copied_by(alloc, calling, payload, params),
            _ => Ok(None),
        }
    }
}

// The segment of copies of a calling address and of data.
fn copied_by(
    alloc: Global,
    calling: &Address,
    payload: &Octets,
    params: &List<Param>,
) -> Result<Option<Arrival>, OutOfMemory>
    requires { reads_if segmentation (param params.now segmentation) ≡ true }
    ensures { IfOk result (λ arrival. arrival ≡ arrival_by calling.now payload.now (param params.now segmentation)) }
{
    if param(params, SEGMENTATION).is_none() {
        return Ok(None);
    }
    let calling = calling.try_clone(alloc)?;
    let payload = payload.try_clone(alloc)?;
    Ok(by(calling, payload, params))
}

// The segment of a calling address, data and parameters.
fn by(calling: Address, payload: Octets, params: &List<Param>) -> Option<Arrival>
    requires { reads_if segmentation (param params.now segmentation) ≡ true }
    ensures { result ≡ arrival_by calling payload (param params.now segmentation) }
{
    match param(params, SEGMENTATION) {
        Some([octet, low, middle, high]) => {
            let reference = reference(*low, *middle, *high);
            Some(Arrival {
                key: Key { calling, reference },
                segment: Segment {
                    first: *octet >> 7 == 1,
                    in_sequence: *octet >> 6 & 1 == 1,
                    remaining: *octet & 0x0F,
                    reference,
                    payload,
                },
            })
        }
        _ => None,
    }
}

// A local reference, whose first octet is the least significant one.
fn reference(low: u8, middle: u8, high: u8) -> Reference
    ensures { result ≡ low + 256 * middle + 65536 * high }
{
    Reference::new(u32::from(low) + 256 * u32::from(middle) + 65536 * u32::from(high)).unwrap()
}
