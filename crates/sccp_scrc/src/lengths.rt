//! Whether a message can be written with another called address, as far as lengths show it.
ghost use Rattle.std.specs.Prelude.{◌≡◌, ◌≤◌, ℕ, true, length};
ghost use Rattle.sccp_address.specs.Written.{title_octets, written};
ghost use Rattle.sccp_layout.specs.Joining.{are_short};
ghost use Rattle.sccp_message.specs.Written.{Writable};
ghost use Rattle.sccp_scrc.specs.Unitdata.{redirected};
ghost use Rattle.sccp_scrc.specs.Lengths.{FitsShort, FitsExtended, FitsLong};

use sccp_address::{Address, Title};
use sccp_layout::Param;
use sccp_message::Message;

/// At least as many octets as the title takes, unless the result is above 255.
fn title_length(title: &Title) -> usize
    ensures most { result ≤ 256 }
    ensures enough { result ≤ 255 → length (title_octets title.now) ≤ result }
{
    match title {
        Title::Absent => 0,
        Title::Global { digits, .. } => 3 + digits.len().div_ceil(2),
        Title::Raw { octets, .. } => octets.as_slice().len().min(256),
    }
}

/// At least as many octets as the address takes, unless the result is above 255. These are an indicator, a point code, a
/// subsystem number and a title.
fn address_length(address: &Address) -> usize
    ensures most { result ≤ 260 }
    ensures enough { result ≤ 255 → length (written address.now) ≤ result }
{
    4 + title_length(&address.title)
}

/// Whether no parameter is longer than its length can say.
fn are_short(params: &[Param]) -> bool
    ensures { result ≡ are_short params.now }
{
    params.iter().all(|param| param.octets().len() <= 255)
}

fn fits_short(called: usize, calling: usize, payload: usize) -> bool
    requires called { called ≤ 260 }
    requires calling { calling ≤ 260 }
    ensures { result ≡ true → FitsShort called calling payload }
{
    called + calling <= 252 && payload <= 255
}

fn fits_extended(called: usize, calling: usize, payload: usize, params: &[Param]) -> bool
    requires called { called ≤ 260 }
    requires calling { calling ≤ 260 }
    ensures { result ≡ true → FitsExtended called calling payload params.now }
{
    if called + calling > 251 {
        return false;
    }
    if payload > 255 {
        return false;
    }
    if params.is_empty() {
        return true;
    }
    if called + calling + payload > 251 {
        return false;
    }
    are_short(params)
}

fn fits_long(called: usize, calling: usize, payload: usize, params: &[Param]) -> bool
    requires called { called ≤ 260 }
    requires calling { calling ≤ 260 }
    ensures { result ≡ true → FitsLong called calling payload params.now }
{
    if called > 255 {
        return false;
    }
    if calling > 255 {
        return false;
    }
    if payload > 65530 {
        return false;
    }
    if called + calling + payload > 65530 {
        return false;
    }
    are_short(params)
}

/// Whether lengths show that the message can be written with this called address. If not, only writing it can show it; that
/// happens only with messages close to the largest.
pub(crate) fn fits(message: &Message, called: &Address) -> bool
    ensures { result ≡ true → (f : ℕ → ℕ) → Writable (redirected called.now f message.now) }
{
    let front = address_length(called);
    match message {
        Message::Udt {
            calling,
            payload,
            ..
        }
        | Message::Udts {
            calling,
            payload,
            ..
        } => fits_short(front, address_length(calling), payload.as_slice().len()),
        Message::Xudt {
            calling,
            payload,
            params,
            ..
        }
        | Message::Xudts {
            calling,
            payload,
            params,
            ..
        } => fits_extended(
            front,
            address_length(calling),
            payload.as_slice().len(),
            params.as_slice(),
        ),
        Message::Ludt {
            calling,
            payload,
            params,
            ..
        }
        | Message::Ludts {
            calling,
            payload,
            params,
            ..
        } => fits_long(
            front,
            address_length(calling),
            payload.as_slice().len(),
            params.as_slice(),
        ),
        _ => false,
    }
}
