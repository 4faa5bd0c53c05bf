//! Sending a long message on in segments.
ghost use Rattle.std.specs.Prelude.{◌≡◌, ◌<◌, ◌++◌, ℕ, List, true, map, Ok, IfOk, OnOk, All};
ghost use Rattle.sccp_address.specs.declared.address.Address.{Address};
ghost use Rattle.sccp_layout.specs.Parameter.{Parameter, parameter};
ghost use Rattle.sccp_layout.specs.Table.{segmentation};
ghost use Rattle.sccp_message.specs.Encoding.{Gives as Encodes, encoding};
ghost use Rattle.sccp_message.specs.Written.{Writable, message_octets};
ghost use Rattle.sccp_message.specs.declared.message.Message.TheVariants.{Ludt};
ghost use Rattle.sccp_message.specs.Fields.{param as param_of, reads_if};
ghost use Rattle.sccp_message.specs.Reading.{reading};
ghost use Rattle.sccp_segment.specs.Segments.{segmentation_octets};
ghost use Rattle.long_segments.specs.Carried.{CarryData};
ghost use Rattle.long_segments.specs.Sending.{FirstTells, Gives, class_for, is_one_segment, params_for, reference_of, segment_message};
ghost use Rattle.long_segments.specs.Sending.{sending, sending_message, written_all};

use crate::long_fault::LongFault;
use sccp_address::Address;
use sccp_base::{List, Octets, OutOfMemory, Reference};
use sccp_layout::Param;
use sccp_message::{DecodeFault, EncodeFault, Message, decode, encode, param};
use sccp_segment::{Segment, SplitDataFault, split_data};
use std::alloc::Global;

// The name of the segmentation parameter (Q.713 section 3.17).
const SEGMENTATION: u8 = 0x10;

// What a long message has besides its data.
#[derive(Drop)]
struct Frame {
    class: u8,
    hops: u8,
    called: Address,
    calling: Address,
    params: List<Param>,
}

// The segmentation parameter of a segment.
fn segmentation(alloc: Global, segment: &Segment) -> Result<Param, OutOfMemory>
    requires { segment.now.remaining < 16 }
    ensures { IfOk result (λ p. p ≡ parameter segmentation (segmentation_octets segment.now)) }
{
    let reference = segment.reference.value();
    let octets = Vec::from_slice(
        alloc,
        &[
            128 * u8::from(segment.first) + 64 * u8::from(segment.in_sequence) + segment.remaining,
            (reference % 256) as u8,
            (reference / 256 % 256) as u8,
            (reference / 65536) as u8,
        ],
    )?;
    Ok(Param::new(SEGMENTATION, Octets::from_vec(octets)).unwrap())
}

// The segmentation parameter of a segment, and after it the other parameters of the message.
fn params_for(
    alloc: Global,
    params: &List<Param>,
    segment: &Segment,
) -> Result<List<Param>, OutOfMemory>
    requires { segment.now.remaining < 16 }
    ensures { IfOk result (λ list. list ≡ params_for params.now segment.now) }
{
    let mut list = List::new(alloc);
    list.push(segmentation(alloc, segment)?)?;
    for param in params.as_slice() {
        if param.name() != SEGMENTATION {
            list.push(param.try_clone(alloc)?)?;
        }
    }
    Ok(list)
}

// Class 1, so that the segments stay in order. Only the first segment has the message's options.
fn class_for(class: u8, segment: &Segment) -> u8
    ensures { result ≡ class_for class segment.now }
{
    if segment.first {
        1 + 16 * (class >> 4)
    } else {
        1
    }
}

// A segment as a message.
fn message(alloc: Global, frame: &Frame, segment: &Segment) -> Result<Message, OutOfMemory>
    requires { segment.now.remaining < 16 }
    ensures { IfOk result (λ m. m
        ≡ segment_message frame.now.class frame.now.hops frame.now.called frame.now.calling frame.now.params segment.now) }
{
    let called = frame.called.try_clone(alloc)?;
    let calling = frame.calling.try_clone(alloc)?;
    let payload = segment.payload.try_clone(alloc)?;
    let params = params_for(alloc, &frame.params, segment)?;
    Ok(Message::Xudt {
        class: class_for(frame.class, segment),
        hops: frame.hops,
        called,
        calling,
        payload,
        params,
    })
}

// The octets of a segment.
fn written(alloc: Global, frame: &Frame, segment: &Segment) -> Result<Octets, EncodeFault>
    requires { segment.now.remaining < 16 }
    ensures found { IfOk result (λ octets. octets ≡ message_octets
        (segment_message frame.now.class frame.now.hops frame.now.called frame.now.calling frame.now.params segment.now)) }
    ensures writable { IfOk result
        (λ _. Writable (segment_message frame.now.class frame.now.hops frame.now.called frame.now.calling frame.now.params segment.now)) }
    ensures exact { Encodes (λ octets. octets) result (encoding
        (segment_message frame.now.class frame.now.hops frame.now.called frame.now.calling frame.now.params segment.now)) }
{
    let message = message(alloc, frame, segment)?;
    let octets = encode(alloc, &message);
    drop(message);
    octets
}

// The octets of further segments, which can be written.
fn push_all(
    alloc: Global,
    frame: &Frame,
    list: &mut List<Octets>,
    segments: &[Segment],
) -> Result<(), OutOfMemory>
    requires few { All (λ s. s.remaining < 16) segments.now }
    requires writable { All (λ s. Writable
        (segment_message frame.now.class frame.now.hops frame.now.called frame.now.calling frame.now.params s)) segments.now }
    ensures { OnOk result (list.new ≡ list.old
        ++ map (λ s. message_octets
        (segment_message frame.now.class frame.now.hops frame.now.called frame.now.calling frame.now.params s)) segments.now) }
{
    for segment in segments {
        match written(alloc, frame, segment) {
            Ok(octets) => list.push(octets)?,
            Err(EncodeFault::OutOfMemory) => return Err(OutOfMemory),
            Err(_) => unreachable!(),
        }
    }
    Ok(())
}

// The octets of all segments, or the fault of the first.
fn written_all(
    alloc: Global,
    frame: &Frame,
    segments: &[Segment],
) -> Result<List<Octets>, LongFault>
    requires few { All (λ s. s.remaining < 16) segments.now }
    requires first_tells { FirstTells
        (map (segment_message frame.now.class frame.now.hops frame.now.called frame.now.calling frame.now.params) segments.now) }
    ensures { Gives (λ list. list) result
        (written_all (map (segment_message frame.now.class frame.now.hops frame.now.called frame.now.calling frame.now.params)
        segments.now)) }
{
    let mut list = List::new(alloc);
    let Some((first, rest)) = segments.split_first() else {
        return Ok(list);
    };
    match written(alloc, frame, first) {
        Ok(octets) => list.push(octets)?,
        Err(EncodeFault::OutOfMemory) => return Err(LongFault::OutOfMemory),
        Err(fault) => return Err(LongFault::NotWritable(fault)),
    }
    push_all(alloc, frame, &mut list, rest)?;
    Ok(list)
}

// Whether a message with these parameters is not a segment, or is the only one.
fn is_one_segment(params: &List<Param>) -> bool
    requires { reads_if segmentation (param_of params.now segmentation) ≡ true }
    ensures { result ≡ is_one_segment (param_of params.now segmentation) }
{
    match param(params, SEGMENTATION) {
        Some([octet, _, _, _]) => *octet >> 7 == 1 && *octet & 0x0F == 0,
        _ => true,
    }
}

// The reference of the message's own segmentation parameter; without one, the given reference.
fn reference_of(params: &List<Param>, reference: Reference) -> Reference
    requires { reads_if segmentation (param_of params.now segmentation) ≡ true }
    ensures { result ≡ reference_of params.now reference }
{
    match param(params, SEGMENTATION) {
        Some([_, low, middle, high]) => {
            let value = u32::from(*low) + 256 * u32::from(*middle) + 65536 * u32::from(*high);
            Reference::new(value).unwrap()
        }
        _ => reference,
    }
}

// Sends a long message on that was read, given as its frame and its data.
fn send_message(
    alloc: Global,
    frame: &Frame,
    payload: &[u8],
    size: u8,
    reference: Reference,
) -> Result<List<Octets>, LongFault>
    requires { reads_if segmentation (param_of frame.now.params segmentation) ≡ true }
    ensures { Gives (λ list. list) result (sending_message
        (Ludt frame.now.class frame.now.hops frame.now.called frame.now.calling payload.now frame.now.params) size reference) }
{
    if !is_one_segment(&frame.params) {
        return Err(LongFault::AlreadySegment);
    }
    let reference = reference_of(&frame.params, reference);
    let in_sequence = frame.class & 0x0F == 1;
    match split_data(alloc, payload, usize::from(size), reference, in_sequence) {
        Ok(segments) => written_all(alloc, frame, segments.as_slice()),
        Err(SplitDataFault::ZeroSize) => Err(LongFault::ZeroSize),
        Err(SplitDataFault::TooMany) => Err(LongFault::TooMany),
        Err(SplitDataFault::OutOfMemory) => Err(LongFault::OutOfMemory),
    }
}

// The octets of the segments by the one definition of what sending on gives. `send_on` promises the same by what they carry.
fn segments_of(
    alloc: Global,
    octets: &[u8],
    size: u8,
    reference: Reference,
) -> Result<List<Octets>, LongFault>
    ensures { Gives (λ list. list) result (sending octets.now size reference) }
{
    let message = match decode(alloc, octets) {
        Ok(message) => message,
        Err(DecodeFault::OutOfMemory) => return Err(LongFault::OutOfMemory),
        Err(_) => return Err(LongFault::NotLong),
    };
    match message {
        Message::Ludt {
            class,
            hops,
            called,
            calling,
            payload,
            params,
        } => {
            let frame = Frame {
                class,
                hops,
                called,
                calling,
                params,
            };
            send_message(alloc, &frame, payload.as_slice(), size, reference)
        }
        other => {
            drop(other);
            Err(LongFault::NotLong)
        }
    }
}

/// Sends a long unitdata message (LUDT) on in segments of `size` octets of data each (Q.714 section 4.1). It answers the
/// octets of an XUDT for each, in order, of class 1 and with the message's addresses, hop counter and other parameters. Only
/// the first has the message's options. The reference is that of the message's own segmentation parameter; without one it is
/// the given one. The octets carry the data of the message: they read as its segments, and a pool that takes them answers it.
///
/// The fault is the first that holds of `NotLong`, `AlreadySegment`, `ZeroSize`, `TooMany` and `NotWritable`.
pub fn send_on(
    alloc: Global,
    octets: &[u8],
    size: u8,
    reference: Reference,
) -> Result<List<Octets>, LongFault>
    ensures exact { Gives (λ list. list) result (sending octets.now size reference) }
    ensures carried { IfOk result (λ list. (class hops : ℕ) (called calling : Address) (payload : List ℕ) (params : List Parameter) →
        reading octets.now ≡ Ok (Ludt class hops called calling payload params) → CarryData list payload) }
{
    segments_of(alloc, octets, size, reference)
}
