//! Whether a message counts as the one that the plan has a relay send.
ghost use Rattle.std.specs.Prelude.{◌≡◌, if◌then◌else◌, true, IsTrue, ◌↔◌, ◌==◌, ◌&&◌, IsSomeAnd};
ghost use Rattle.std.specs.Option.{option_copied};
ghost use Rattle.sccp_message.specs.Unitdata.{called_of, hops_of, payload_of};
ghost use Rattle.relay_ways.specs.Alike.{IsAlike, IsSameCalled, code_of, number_of, calling_of, params_of};
ghost use Rattle.relay_ways.specs.Alike.{same_flag, same_optional, same_point, same_title, is_absent, same_address, same_called};

use sccp_address::{Address, Title};
use sccp_base::{List, Octets, PointCode};
use sccp_layout::Param;
use sccp_message::Message;

/// The type code, or 0 if the message is not connectionless.
pub(crate) fn code(message: &Message) -> u8
    ensures { result ≡ code_of message.now }
{
    match message {
        Message::Udt { .. } => 0x09,
        Message::Udts { .. } => 0x0A,
        Message::Xudt { .. } => 0x11,
        Message::Xudts { .. } => 0x12,
        Message::Ludt { .. } => 0x13,
        Message::Ludts { .. } => 0x14,
        _ => 0,
    }
}

/// The octet of the class or of the return cause.
pub(crate) fn number(message: &Message) -> u8
    ensures { result ≡ number_of message.now }
{
    match message {
        Message::Udt { class, .. } | Message::Xudt { class, .. } | Message::Ludt { class, .. } =>
            *class,
        Message::Udts { cause, .. } | Message::Xudts { cause, .. } | Message::Ludts { cause, .. } =>
            *cause,
        _ => 0,
    }
}

/// The calling address of a connectionless message (Q.713 section 3.5). `None` for any other message.
pub fn calling(message: &Message) -> Option<&Address>
    ensures { option_copied result ≡ calling_of message.now }
{
    match message {
        Message::Udt { calling, .. }
        | Message::Udts { calling, .. }
        | Message::Xudt { calling, .. }
        | Message::Xudts { calling, .. }
        | Message::Ludt { calling, .. }
        | Message::Ludts { calling, .. } => Some(calling),
        _ => None,
    }
}

/// The optional parameters of a type that may have some.
fn params(message: &Message) -> Option<&List<Param>>
    ensures { option_copied result ≡ params_of message.now }
{
    match message {
        Message::Xudt { params, .. }
        | Message::Xudts { params, .. }
        | Message::Ludt { params, .. }
        | Message::Ludts { params, .. } => Some(params),
        _ => None,
    }
}

pub(crate) fn same_flag(a: bool, b: bool) -> bool
    ensures { result ≡ same_flag a b }
{
    if a { b } else { !b }
}

pub(crate) fn same_number(a: Option<u8>, b: Option<u8>) -> bool
    ensures { result ≡ same_optional a b }
{
    match a {
        Some(a) => match b {
            Some(b) => a == b,
            None => false,
        },
        None => b.is_none(),
    }
}

fn same_code(a: Option<PointCode>, b: Option<PointCode>) -> bool
    ensures { result ≡ same_optional a b }
{
    match a {
        Some(a) => match b {
            Some(b) => a == b,
            None => false,
        },
        None => b.is_none(),
    }
}

/// Whether both are the same, or one is absent and the other the point that the message goes to.
pub(crate) fn same_point(to: PointCode, a: Option<PointCode>, b: Option<PointCode>) -> bool
    ensures { result ≡ same_point to a b }
{
    match a {
        Some(a) => match b {
            Some(b) => a == b,
            None => a == to,
        },
        None => match b {
            Some(b) => b == to,
            None => true,
        },
    }
}

fn same_title(a: &Title, b: &Title) -> bool
    ensures { result ≡ same_title a.now b.now }
{
    match a {
        Title::Absent => is_absent(b),
        Title::Global { selector, digits } => match b {
            Title::Global {
                selector: s,
                digits: d,
            } => selector == s && digits.as_slice() == d.as_slice(),
            _ => false,
        },
        Title::Raw { kind, octets } => match b {
            Title::Raw { kind: k, octets: o } => kind == k && octets.as_slice() == o.as_slice(),
            _ => false,
        },
    }
}

fn is_absent(title: &Title) -> bool
    ensures { result ≡ is_absent title.now }
{
    match title {
        Title::Absent => true,
        _ => false,
    }
}

pub(crate) fn same_address(a: &Address, b: &Address) -> bool
    ensures { result ≡ same_address a.now b.now }
{
    same_flag(a.national, b.national)
        && same_flag(a.by_ssn, b.by_ssn)
        && same_code(a.pc, b.pc)
        && same_number(a.ssn, b.ssn)
        && same_title(&a.title, &b.title)
}

/// Whether the title is the same, or is left out of an address that routes on its subsystem number.
pub(crate) fn same_called_title(a: &Address, b: &Address) -> bool
    ensures { result ≡ (if same_title a.now.title b.now.title then true else a.now.by_ssn && is_absent b.now.title) }
{
    if same_title(&a.title, &b.title) {
        return true;
    }
    a.by_ssn && is_absent(&b.title)
}

/// Whether a called address counts as the expected one.
fn same_called(to: PointCode, a: &Address, b: &Address) -> bool
    ensures { result ≡ same_called to a.now b.now }
{
    same_flag(a.national, b.national)
        && same_flag(a.by_ssn, b.by_ssn)
        && same_point(to, a.pc, b.pc)
        && same_number(a.ssn, b.ssn)
        && same_called_title(a, b)
}

fn same_octets(a: &[u8], b: &[u8]) -> bool
    ensures { IsTrue result ↔ (a.now ≡ b.now) }
{
    a == b
}

fn same_param(a: &Param, b: &Param) -> bool
    ensures { IsTrue result ↔ (a.now ≡ b.now) }
{
    if a.name() != b.name() {
        return false;
    }
    same_octets(a.octets(), b.octets())
}

fn same_params(a: &[Param], b: &[Param]) -> bool
    ensures { IsTrue result ↔ (a.now ≡ b.now) }
{
    if a.len() != b.len() {
        return false;
    }
    for (i, param) in a.iter().enumerate() {
        if !same_param(param, &b[i]) {
            return false;
        }
    }
    true
}

/// Whether both have the same parameters, or none can have any.
pub(crate) fn have_same_params(a: &Message, b: &Message) -> bool
    ensures { IsTrue result ↔ (params_of a.now ≡ params_of b.now) }
{
    match params(a) {
        Some(a) => match params(b) {
            Some(b) => same_params(a.as_slice(), b.as_slice()),
            None => false,
        },
        None => match params(b) {
            Some(_) => false,
            None => true,
        },
    }
}

/// Whether both have the same data.
fn have_same_data(a: &Message, b: &Message) -> bool
    ensures { IsTrue result ↔ (payload_of a.now ≡ payload_of b.now) }
{
    match a.payload() {
        Some(a) => match b.payload() {
            Some(b) => same_octets(a.as_slice(), b.as_slice()),
            None => false,
        },
        None => match b.payload() {
            Some(_) => false,
            None => true,
        },
    }
}

/// Whether both have the same calling address.
fn have_same_calling(a: &Message, b: &Message) -> bool
    ensures { IsTrue result ↔ IsSomeAnd (calling_of a.now) (λ x. IsSomeAnd (calling_of b.now) (λ y. x ≡ y)) }
{
    match calling(a) {
        Some(a) => match calling(b) {
            Some(b) => same_address(a, b),
            None => false,
        },
        None => false,
    }
}

/// Whether the called address counts as the expected one.
fn have_same_called(to: PointCode, a: &Message, b: &Message) -> bool
    ensures { IsTrue result ↔ IsSomeAnd (called_of a.now) (λ x. IsSomeAnd (called_of b.now) (λ y. IsSameCalled to x y)) }
{
    match a.called() {
        Some(a) => match b.called() {
            Some(b) => same_called(to, a, b),
            None => false,
        },
        None => false,
    }
}

/// Whether type, class or cause, and hop counter are the same.
fn have_same_numbers(a: &Message, b: &Message) -> bool
    ensures { result ≡ (code_of a.now == code_of b.now && (number_of a.now == number_of b.now
        && same_optional (hops_of a.now) (hops_of b.now))) }
{
    code(a) == code(b) && number(a) == number(b) && same_number(a.hops(), b.hops())
}

/// Whether a message that goes to the point `to` counts as the expected one. The point code of its called address may be that
/// point or absent, and if it routes on its subsystem number its title may be left out, since the standard leaves both to
/// the relay (Q.714 section 2). All else has to be the same.
pub fn is_alike(to: PointCode, expected: &Message, sent: &Message) -> bool
    ensures { IsTrue result ↔ IsAlike to expected.now sent.now }
{
    if !have_same_numbers(expected, sent) {
        return false;
    }
    if !have_same_called(to, expected, sent) {
        return false;
    }
    if !have_same_calling(expected, sent) {
        return false;
    }
    if !have_same_params(expected, sent) {
        return false;
    }
    have_same_data(expected, sent)
}
