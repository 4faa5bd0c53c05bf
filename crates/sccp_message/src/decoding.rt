//! Reading a message from octets.
ghost use Rattle.std.specs.Prelude.{◌≡◌, ◌≤◌, ◌-◌, [], ◌∷◌, length, slice_get, Some, Ok, IfOk, IfErr, ◌⊎◌, true};
ghost use Rattle.std.specs.List.{range_with_len};
ghost use Rattle.sccp_base.specs.Answers.{all_ok};
ghost use Rattle.sccp_layout.specs.Parts.{FitsLayout};
ghost use Rattle.sccp_message.specs.Messages.{message_of};
ghost use Rattle.sccp_message.specs.Reading.{Gives, address_in, fields_in, message_in, reading, first_fault};
ghost use Rattle.sccp_message.specs.Kinds.{is_plain, is_extended, has_parameters, has_no_parameters, message_if_of};
ghost use Rattle.sccp_message.specs.declared.message.Message.{Message};
ghost use Rattle.sccp_message.specs.Reads.{Reads};
ghost use Rattle.sccp_message.specs.Written.{Sound, IsMessage};

use crate::fault::DecodeFault;
use crate::fields::{address, data, is_more, reference, sequence};
use crate::message::Message;
use crate::params::{CALLED, CALLING, CREDIT, DATA, HOPS, IMPORTANCE, SEGMENTATION, tested};
use sccp_address::Address;
use sccp_base::{List, Octets};
use sccp_layout::{Param, Part, Parts, SplitFault, split};
use std::alloc::Global;

// The value of one field: it is at a place of the fixed part, or it is the data.
macro_rules! field {
    (($alloc:ident $fixed:ident $variable:ident) reference($place:literal)) => {
        reference($fixed, $place)
    };
    (($alloc:ident $fixed:ident $variable:ident) octet($place:literal)) => {
        $fixed[$place]
    };
    (($alloc:ident $fixed:ident $variable:ident) sequence($place:literal)) => {
        sequence($fixed[$place])
    };
    (($alloc:ident $fixed:ident $variable:ident) more($place:literal)) => {
        is_more($fixed[$place])
    };
    (($alloc:ident $fixed:ident $variable:ident) data()) => {
        data($alloc, $variable)?
    };
}

// The message of a code. A line for each type has its fields.
macro_rules! by_code {
    ($alloc:ident $code:ident $fixed:ident $variable:ident; $($value:literal $variant:ident
        { $($field:ident: $kind:ident $place:tt),* })*) => {
        match $code {
            $($value => Ok(Message::$variant {
                $($field: field!(($alloc $fixed $variable) $kind $place)),*
            }),)*
            _ => Err(DecodeFault::Split(SplitFault::UnknownType)),
        }
    };
}

// What each connectionless message has: its addresses are the first two variable parts, and its data are the last.
#[derive(Drop)]
struct Carried {
    called: Address,
    calling: Address,
    payload: Octets,
}

// Reads these from the variable parts. The fault names the first part that is not an address.
fn what_is_carried(alloc: Global, variable: &List<Part<'_>>) -> Result<Carried, DecodeFault>
    requires { 2 ≤ length variable.now }
    ensures addresses { Gives (λ c. c.called ∷ c.calling ∷ []) result (all_ok (address_in variable.now) (range_with_len 0 2)) }
    ensures payload { IfOk result (λ c. slice_get variable.now (length variable.now - 1) ≡ Some c.payload) }
{
    let called = address(alloc, variable, 0)?;
    let calling = address(alloc, variable, 1)?;
    let payload = data(alloc, variable)?;
    Ok(Carried {
        called,
        calling,
        payload,
    })
}

// The same with its parameters, once those that are known to the type are tested.
fn with_tested(
    alloc: Global,
    carried: Carried,
    params: List<Param>,
) -> Result<(Carried, List<Param>), DecodeFault>
    ensures carried { IfOk result (λ both. both.0 ≡ carried) }
    ensures params { Gives (λ both. both.1) result (fields_in (SEGMENTATION ∷ IMPORTANCE ∷ []) params) }
{
    match tested(alloc, &[SEGMENTATION, IMPORTANCE], params) {
        Ok(params) => Ok((carried, params)),
        Err(fault) => {
            drop(carried);
            Err(fault)
        }
    }
}

// Whether the type is connectionless without an optional part.
fn plain_code(code: u8) -> bool
    ensures { result ≡ is_plain code }
{
    code == 0x09 || code == 0x0A
}

// The message of a code of that kind. Nothing can fail any more.
fn plain_of(code: u8, fixed: &[u8], carried: Carried) -> Message
    requires code { is_plain code ≡ true }
    requires fixed { length fixed.now ≡ 1 }
    ensures { Some result ≡ message_of code fixed.now (carried.called ∷ carried.calling ∷ []) carried.payload [] }
{
    let Carried {
        called,
        calling,
        payload,
    } = carried;
    if code == 0x09 {
        return Message::Udt {
            class: fixed[0],
            called,
            calling,
            payload,
        };
    }
    Message::Udts {
        cause: fixed[0],
        called,
        calling,
        payload,
    }
}

// Reads a message of that kind.
fn plain(
    alloc: Global,
    code: u8,
    fixed: &[u8],
    variable: &List<Part<'_>>,
    params: List<Param>,
) -> Result<Message, DecodeFault>
    requires { FitsLayout (record { code = code; fixed = fixed.now; variable = variable.now; params = params }) }
    ensures { Gives (λ m. m) result (message_if_of is_plain
        (record { code = code; fixed = fixed.now; variable = variable.now; params = params })) }
{
    if !plain_code(code) {
        return Err(DecodeFault::Split(SplitFault::UnknownType));
    }
    let carried = what_is_carried(alloc, variable)?;
    Ok(plain_of(code, fixed, carried))
}

// Whether the type is connectionless with a hop counter and an optional part.
fn extended_code(code: u8) -> bool
    ensures { result ≡ is_extended code }
{
    code == 0x11 || code == 0x12 || code == 0x13 || code == 0x14
}

// The message of a code of that kind. Nothing can fail any more.
fn extended_of(code: u8, fixed: &[u8], carried: Carried, params: List<Param>) -> Message
    requires code { is_extended code ≡ true }
    requires fixed { length fixed.now ≡ 2 }
    ensures { Some result ≡ message_of code fixed.now (carried.called ∷ carried.calling ∷ []) carried.payload params }
{
    let Carried {
        called,
        calling,
        payload,
    } = carried;
    let (first, hops) = (fixed[0], fixed[1]);
    match code {
        0x11 => Message::Xudt {
            class: first,
            hops,
            called,
            calling,
            payload,
            params,
        },
        0x12 => Message::Xudts {
            cause: first,
            hops,
            called,
            calling,
            payload,
            params,
        },
        0x13 => Message::Ludt {
            class: first,
            hops,
            called,
            calling,
            payload,
            params,
        },
        _ => Message::Ludts {
            cause: first,
            hops,
            called,
            calling,
            payload,
            params,
        },
    }
}

// Reads a message of that kind.
fn extended(
    alloc: Global,
    code: u8,
    fixed: &[u8],
    variable: &List<Part<'_>>,
    params: List<Param>,
) -> Result<Message, DecodeFault>
    requires { FitsLayout (record { code = code; fixed = fixed.now; variable = variable.now; params = params }) }
    ensures { Gives (λ m. m) result (message_if_of is_extended
        (record { code = code; fixed = fixed.now; variable = variable.now; params = params })) }
{
    if !extended_code(code) {
        return Err(DecodeFault::Split(SplitFault::UnknownType));
    }
    let carried = what_is_carried(alloc, variable)?;
    let (carried, params) = with_tested(alloc, carried, params)?;
    Ok(extended_of(code, fixed, carried, params))
}

// Whether the type is connection-oriented and may have an optional part.
fn code_with_parameters(code: u8) -> bool
    ensures { result ≡ has_parameters code }
{
    code == 0x01 || code == 0x02 || code == 0x03 || code == 0x04
}

// Reads a connection request message.
#[tactic(auto, unfolding(crate::specs::Reading::message_in))]
fn request(
    alloc: Global,
    fixed: &[u8],
    variable: &List<Part<'_>>,
    params: List<Param>,
) -> Result<Message, DecodeFault>
    requires { FitsLayout (record { code = 0x01; fixed = fixed.now; variable = variable.now; params = params }) }
    ensures { Gives (λ m. m) result (message_in (record { code = 0x01; fixed = fixed.now; variable = variable.now; params = params })) }
{
    let called = address(alloc, variable, 0)?;
    match tested(alloc, &[CREDIT, CALLING, DATA, HOPS, IMPORTANCE], params) {
        Ok(params) => Ok(Message::Cr {
            slr: reference(fixed, 0),
            class: fixed[3],
            called,
            params,
        }),
        Err(fault) => {
            drop(called);
            Err(fault)
        }
    }
}

// Reads a connection confirm message. It and the next two types have no variable part; only the clause names it.
#[tactic(auto, unfolding(crate::specs::Reading::message_in))]
fn confirm(
    alloc: Global,
    fixed: &[u8],
    variable: &List<Part<'_>>,
    params: List<Param>,
) -> Result<Message, DecodeFault>
    requires { FitsLayout (record { code = 0x02; fixed = fixed.now; variable = variable.now; params = params }) }
    ensures { Gives (λ m. m) result (message_in (record { code = 0x02; fixed = fixed.now; variable = variable.now; params = params })) }
{
    let params = tested(alloc, &[CREDIT, CALLED, DATA, IMPORTANCE], params)?;
    Ok(Message::Cc {
        dlr: reference(fixed, 0),
        slr: reference(fixed, 3),
        class: fixed[6],
        params,
    })
}

// Reads a connection refused message.
#[tactic(auto, unfolding(crate::specs::Reading::message_in))]
fn refusal(
    alloc: Global,
    fixed: &[u8],
    variable: &List<Part<'_>>,
    params: List<Param>,
) -> Result<Message, DecodeFault>
    requires { FitsLayout (record { code = 0x03; fixed = fixed.now; variable = variable.now; params = params }) }
    ensures { Gives (λ m. m) result (message_in (record { code = 0x03; fixed = fixed.now; variable = variable.now; params = params })) }
{
    let params = tested(alloc, &[CALLED, DATA, IMPORTANCE], params)?;
    Ok(Message::Cref {
        dlr: reference(fixed, 0),
        cause: fixed[3],
        params,
    })
}

// Reads a released message.
#[tactic(auto, unfolding(crate::specs::Reading::message_in))]
fn release(
    alloc: Global,
    fixed: &[u8],
    variable: &List<Part<'_>>,
    params: List<Param>,
) -> Result<Message, DecodeFault>
    requires { FitsLayout (record { code = 0x04; fixed = fixed.now; variable = variable.now; params = params }) }
    ensures { Gives (λ m. m) result (message_in (record { code = 0x04; fixed = fixed.now; variable = variable.now; params = params })) }
{
    let params = tested(alloc, &[DATA, IMPORTANCE], params)?;
    Ok(Message::Rlsd {
        dlr: reference(fixed, 0),
        slr: reference(fixed, 3),
        cause: fixed[6],
        params,
    })
}

// Reads a message of that kind.
fn with_parameters(
    alloc: Global,
    code: u8,
    fixed: &[u8],
    variable: &List<Part<'_>>,
    params: List<Param>,
) -> Result<Message, DecodeFault>
    requires { FitsLayout (record { code = code; fixed = fixed.now; variable = variable.now; params = params }) }
    ensures { Gives (λ m. m) result (message_if_of has_parameters
        (record { code = code; fixed = fixed.now; variable = variable.now; params = params })) }
{
    match code {
        0x01 => request(alloc, fixed, variable, params),
        0x02 => confirm(alloc, fixed, variable, params),
        0x03 => refusal(alloc, fixed, variable, params),
        0x04 => release(alloc, fixed, variable, params),
        _ => Err(DecodeFault::Split(SplitFault::UnknownType)),
    }
}

// Whether the type is connection-oriented with fixed fields only, or with these and data.
fn code_without_parameters(code: u8) -> bool
    ensures { result ≡ has_no_parameters code }
{
    code == 0x05
        || code == 0x06
        || code == 0x07
        || code == 0x08
        || code == 0x0B
        || code == 0x0C
        || code == 0x0D
        || code == 0x0E
        || code == 0x0F
        || code == 0x10
}

// Reads a message of that kind, field by field.
#[tactic(auto, unfolding(crate::specs::Reading::message_in))]
fn without_parameters(
    alloc: Global,
    code: u8,
    fixed: &[u8],
    variable: &List<Part<'_>>,
    params: List<Param>,
) -> Result<Message, DecodeFault>
    requires { FitsLayout (record { code = code; fixed = fixed.now; variable = variable.now; params = params }) }
    ensures { Gives (λ m. m) result (message_if_of has_no_parameters
        (record { code = code; fixed = fixed.now; variable = variable.now; params = params })) }
{
    by_code! { alloc code fixed variable;
        0x05 Rlc { dlr: reference(0), slr: reference(3) }
        0x06 Dt1 { dlr: reference(0), more: more(3), payload: data() }
        0x07 Dt2 { dlr: reference(0), send: sequence(3), receive: sequence(4), more: more(4), payload: data() }
        0x08 Ak { dlr: reference(0), receive: sequence(3), credit: octet(4) }
        0x0B Ed { dlr: reference(0), payload: data() }
        0x0C Ea { dlr: reference(0) }
        0x0D Rsr { dlr: reference(0), slr: reference(3), cause: octet(6) }
        0x0E Rsc { dlr: reference(0), slr: reference(3) }
        0x0F Err { dlr: reference(0), cause: octet(3) }
        0x10 It { dlr: reference(0), slr: reference(3), class: octet(6), send: sequence(7), receive: sequence(8), more: more(8),
            credit: octet(9) }
    }
}

// The message of parts, by the kind of its type.
fn message(alloc: Global, parts: Parts<'_>) -> Result<Message, DecodeFault>
    requires { FitsLayout parts }
    ensures { Gives (λ m. m) result (message_in parts.entry) }
{
    let Parts {
        code,
        fixed,
        variable,
        params,
    } = parts;
    let fixed = fixed.as_slice();
    if plain_code(code) {
        return plain(alloc, code, fixed, &variable, params);
    }
    if extended_code(code) {
        return extended(alloc, code, fixed, &variable, params);
    }
    if code_with_parameters(code) {
        return with_parameters(alloc, code, fixed, &variable, params);
    }
    if code_without_parameters(code) {
        return without_parameters(alloc, code, fixed, &variable, params);
    }
    Err(DecodeFault::Split(SplitFault::UnknownType))
}

// The message by the one definition of what reading gives. `decode` promises the same by what the octets are.
fn whole(alloc: Global, octets: &[u8]) -> Result<Message, DecodeFault>
    ensures { Gives (λ m. m) result (reading octets.now) }
{
    let parts = match split(alloc, octets) {
        Ok(parts) => parts,
        Err(SplitFault::OutOfMemory) => return Err(DecodeFault::OutOfMemory),
        Err(fault) => return Err(DecodeFault::Split(fault)),
    };
    message(alloc, parts)
}

/// Reads a message of any of the twenty types, which is all of the octets (Q.713 sections 2 to 4).
///
/// Parts may follow in any order, overlap or leave gaps. Spare bits, and octets after the last part, are ignored. The
/// fault is the first test that fails. The tests are the type, the length, each variable part, the optional part, each
/// address, and each parameter that is known to the type. Of a repeated name, the first parameter counts.
pub fn decode(alloc: Global, octets: &[u8]) -> Result<Message, DecodeFault>
    ensures found { IfOk result (λ m. Reads octets.now m) }
    ensures sound { IfOk result (λ m. Sound m) }
    ensures kept { IfOk result (λ m. IsMessage m) }
    ensures only { (m : Message) → Reads octets.now m → Gives (λ m. m) result (Ok m) }
    ensures refused { IfErr result (λ e. e ≡ DecodeFault.OutOfMemory ⊎ first_fault octets.now ≡ Some e) }
    ensures exact { Gives (λ m. m) result (reading octets.now) }
{
    whole(alloc, octets)
}
