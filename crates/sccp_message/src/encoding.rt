//! Writing a message as octets.
ghost use Rattle.std.specs.Prelude.{◌≡◌, true, ◌+◌, ◌*◌, ◌/◌, ◌%◌, ◌∷◌, [], Some, None, Ok, IfOk};
ghost use Rattle.sccp_layout.specs.Table.{row};
ghost use Rattle.sccp_layout.specs.Parts.{parts_made, FitsLayout};
ghost use Rattle.sccp_message.specs.Reads.{Reads};
ghost use Rattle.sccp_message.specs.Written.{content, made_of, sevens, message_octets, Sound, Writable, AreAddresses, AreNamed, AreSevens};
ghost use Rattle.sccp_message.specs.Encoding.{Gives, encoding_by, encoding_with, encoding, fits};

use crate::encode_fault::EncodeFault;
use crate::message::Message;
use sccp_address::{Address, write};
use sccp_base::{Octets, Reference};
use sccp_layout::{JoinFault, Param, Part, join_parts};
use std::alloc::Global;

// The lowest octet of a local reference.
fn low(reference: &Reference) -> u8
    ensures { result ≡ reference.now % 256 }
{
    (reference.value() % 256) as u8
}

// The middle octet of a local reference.
fn middle(reference: &Reference) -> u8
    ensures { result ≡ reference.now / 256 % 256 }
{
    (reference.value() / 256 % 256) as u8
}

// The highest octet of a local reference.
fn high(reference: &Reference) -> u8
    ensures { result ≡ reference.now / 65536 }
{
    (reference.value() / 65536) as u8
}

// The octets of a message with these parts.
fn joined(
    alloc: Global,
    code: u8,
    fixed: &[u8],
    variable: &[Part<'_>],
    params: &[Param],
) -> Result<Octets, EncodeFault>
    requires { FitsLayout (parts_made code fixed.now variable.now params.now) }
    ensures exact { Gives (λ octets. octets) result (encoding_by (row code) (parts_made code fixed.now variable.now params.now)) }
    ensures named { IfOk result (λ _. AreNamed params.now) }
{
    match join_parts(alloc, code, fixed, variable, params) {
        Ok(octets) => Ok(octets),
        Err(JoinFault::TooLong(part)) => Err(EncodeFault::TooLong(part)),
        Err(JoinFault::PointerTooFar(i)) => Err(EncodeFault::PointerTooFar(i)),
        Err(JoinFault::OutOfMemory) => Err(EncodeFault::OutOfMemory),
    }
}

// The octets of a message with three variable parts.
fn joined_unit<'a>(
    alloc: Global,
    code: u8,
    fixed: &[u8],
    called: &'a Octets,
    calling: &'a Octets,
    payload: &'a Octets,
    params: &[Param],
) -> Result<Octets, EncodeFault>
    requires { FitsLayout (parts_made code fixed.now (called.now ∷ calling.now ∷ payload.now ∷ []) params.now) }
    ensures exact { Gives (λ octets. octets) result (encoding_by (row code)
        (parts_made code fixed.now (called.now ∷ calling.now ∷ payload.now ∷ []) params.now)) }
    ensures named { IfOk result (λ _. AreNamed params.now) }
{
    let variable = [
        Part::new(called.as_slice()),
        Part::new(calling.as_slice()),
        Part::new(payload.as_slice()),
    ];
    joined(alloc, code, fixed, &variable, params)
}

// The octets of a type with a called and a calling address, and data.
fn unit(
    alloc: Global,
    code: u8,
    fixed: &[u8],
    called: &Address,
    calling: &Address,
    payload: &Octets,
    params: &[Param],
) -> Result<Octets, EncodeFault>
    requires { fits (made_of code fixed.now (called.now ∷ calling.now ∷ []) (Some payload.now) params.now) ≡ true }
    ensures exact { Gives (λ octets. octets) result (encoding_with
        (made_of code fixed.now (called.now ∷ calling.now ∷ []) (Some payload.now) params.now)) }
    ensures named { IfOk result (λ _. AreNamed params.now) }
{
    let called = write(alloc, called)?;
    let calling = write(alloc, calling)?;
    joined_unit(alloc, code, fixed, &called, &calling, payload, params)
}

// The octets of a type with a called address.
fn request(
    alloc: Global,
    code: u8,
    fixed: &[u8],
    called: &Address,
    params: &[Param],
) -> Result<Octets, EncodeFault>
    requires { fits (made_of code fixed.now (called.now ∷ []) None params.now) ≡ true }
    ensures exact { Gives (λ octets. octets) result (encoding_with (made_of code fixed.now (called.now ∷ []) None params.now)) }
    ensures named { IfOk result (λ _. AreNamed params.now) }
{
    let called = write(alloc, called)?;
    joined(alloc, code, fixed, &[Part::new(called.as_slice())], params)
}

// The octets of a type with data, and no address.
fn data(
    alloc: Global,
    code: u8,
    fixed: &[u8],
    payload: &Octets,
    params: &[Param],
) -> Result<Octets, EncodeFault>
    requires { fits (made_of code fixed.now [] (Some payload.now) params.now) ≡ true }
    ensures exact { Gives (λ octets. octets) result (encoding_with (made_of code fixed.now [] (Some payload.now) params.now)) }
    ensures named { IfOk result (λ _. AreNamed params.now) }
{
    joined(alloc, code, fixed, &[Part::new(payload.as_slice())], params)
}

// The octets of a type without a variable part.
fn plain(alloc: Global, code: u8, fixed: &[u8], params: &[Param]) -> Result<Octets, EncodeFault>
    requires { fits (made_of code fixed.now [] None params.now) ≡ true }
    ensures exact { Gives (λ octets. octets) result (encoding_with (made_of code fixed.now [] None params.now)) }
    ensures named { IfOk result (λ _. AreNamed params.now) }
{
    joined(alloc, code, fixed, &[], params)
}

// The octets of the fixed part, field by field from left to right.
macro_rules! fixed {
    ([$($octet:expr),*]) => {
        &[$($octet),*]
    };
    ([$($octet:expr),*] reference($reference:ident) $($rest:tt)*) => {
        fixed!([$($octet,)* low($reference), middle($reference), high($reference)] $($rest)*)
    };
    ([$($octet:expr),*] octet($value:ident) $($rest:tt)*) => {
        fixed!([$($octet,)* *$value] $($rest)*)
    };
    ([$($octet:expr),*] more($more:ident) $($rest:tt)*) => {
        fixed!([$($octet,)* u8::from(*$more)] $($rest)*)
    };
    ([$($octet:expr),*] sequence($number:ident) $($rest:tt)*) => {
        fixed!([$($octet,)* 2 * $number.value()] $($rest)*)
    };
    ([$($octet:expr),*] sequence($number:ident, $more:ident) $($rest:tt)*) => {
        fixed!([$($octet,)* 2 * $number.value() + u8::from(*$more)] $($rest)*)
    };
}

// The parameters of a type. A type without an optional part has none.
macro_rules! list {
    (-) => {
        &[]
    };
    ($params:ident) => {
        $params.as_slice()
    };
}

// The octets of a message. A line for each type has its code, its fields, its fixed part, its variable parts and its
// parameters.
macro_rules! by_type {
    ($message:expr, $alloc:expr; $($code:literal $variant:ident { $($field:ident),* }
        [$($fixed:tt)*] $kind:ident($($part:ident),*) $params:tt)*) => {
        match $message {
            $(Message::$variant { $($field),* } => {
                $kind($alloc, $code, fixed!([] $($fixed)*), $($part,)* list!($params))
            })*
        }
    };
}

// The octets of a message, by the line of its type.
fn whole(alloc: Global, message: &Message) -> Result<Octets, EncodeFault>
    ensures exact { Gives (λ octets. octets) result (encoding message.now) }
    ensures named { IfOk result (λ _. AreNamed (content message.now).params) }
{
    by_type! { message, alloc;
        0x01 Cr { slr, class, called, params } [reference(slr) octet(class)] request(called) params
        0x02 Cc { dlr, slr, class, params } [reference(dlr) reference(slr) octet(class)] plain() params
        0x03 Cref { dlr, cause, params } [reference(dlr) octet(cause)] plain() params
        0x04 Rlsd { dlr, slr, cause, params } [reference(dlr) reference(slr) octet(cause)] plain() params
        0x05 Rlc { dlr, slr } [reference(dlr) reference(slr)] plain() -
        0x06 Dt1 { dlr, more, payload } [reference(dlr) more(more)] data(payload) -
        0x07 Dt2 { dlr, send, receive, more, payload } [reference(dlr) sequence(send) sequence(receive, more)] data(payload) -
        0x08 Ak { dlr, receive, credit } [reference(dlr) sequence(receive) octet(credit)] plain() -
        0x09 Udt { class, called, calling, payload } [octet(class)] unit(called, calling, payload) -
        0x0A Udts { cause, called, calling, payload } [octet(cause)] unit(called, calling, payload) -
        0x0B Ed { dlr, payload } [reference(dlr)] data(payload) -
        0x0C Ea { dlr } [reference(dlr)] plain() -
        0x0D Rsr { dlr, slr, cause } [reference(dlr) reference(slr) octet(cause)] plain() -
        0x0E Rsc { dlr, slr } [reference(dlr) reference(slr)] plain() -
        0x0F Err { dlr, cause } [reference(dlr) octet(cause)] plain() -
        0x10 It { dlr, slr, class, send, receive, more, credit }
            [reference(dlr) reference(slr) octet(class) sequence(send) sequence(receive, more) octet(credit)] plain() -
        0x11 Xudt { class, hops, called, calling, payload, params } [octet(class) octet(hops)] unit(called, calling, payload) params
        0x12 Xudts { cause, hops, called, calling, payload, params } [octet(cause) octet(hops)] unit(called, calling, payload) params
        0x13 Ludt { class, hops, called, calling, payload, params } [octet(class) octet(hops)] unit(called, calling, payload) params
        0x14 Ludts { cause, hops, called, calling, payload, params } [octet(cause) octet(hops)] unit(called, calling, payload) params
    }
}

// Shows that the sequence numbers have seven bits. Their values are read, and nothing is done.
fn vouch_sevens(message: &Message)
    ensures { AreSevens (sevens message.now) }
{
    match message {
        Message::Dt2 { send, receive, .. } => {
            let _ = (send.value(), receive.value());
        }
        Message::Ak { receive, .. } => {
            let _ = receive.value();
        }
        Message::It { send, receive, .. } => {
            let _ = (send.value(), receive.value());
        }
        _ => {}
    }
}

/// Writes a message as octets (Q.713 sections 2 to 4). The parts follow in pointer order without gaps, the optional part
/// last, and spare bits are 0.
///
/// `TooLong` if a part or a parameter is longer than its length can say, otherwise `PointerTooFar` for the first pointer
/// whose value does not fit. A sound message is read again from its octets, if its addresses are such as
/// `sccp_address::read` and `Title::global` make.
pub fn encode(alloc: Global, message: &Message) -> Result<Octets, EncodeFault>
    ensures found { IfOk result (λ octets. octets ≡ message_octets message.now) }
    ensures writable { IfOk result (λ _. Writable message.now) }
    ensures only { Writable message.now → Gives (λ octets. octets) result (Ok (message_octets message.now)) }
    ensures exact { Gives (λ octets. octets) result (encoding message.now) }
    ensures again { AreAddresses (content message.now).addresses → Sound message.now → IfOk result (λ octets. Reads octets message.now) }
{
    vouch_sevens(message);
    whole(alloc, message)
}
