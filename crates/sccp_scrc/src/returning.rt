//! The return of messages that cannot be delivered (Q.714 section 4.2).
ghost use Rattle.std.specs.Prelude.{◌≡◌, IfOk};
ghost use Rattle.std.specs.Option.{option_map_or};
ghost use Rattle.sccp_scrc.specs.declared.way.Way.TheVariants.{Direct};
ghost use Rattle.sccp_message.specs.Unitdata.{called_of};
ghost use Rattle.sccp_scrc.specs.Returning.{way_to, way_back, asks_for_return, service_message, service_for, service_by, returned};

use crate::arrival::Arrival;
use crate::here::Here;
use crate::leaving::octets_of;
use crate::rewriting::spot;
use crate::service::Service;
use crate::way::Way;
use sccp_address::Address;
use sccp_base::{List, Mark, Marking, OutOfMemory, PointCode};
use sccp_message::{Message, wants_return};
use std::alloc::Global;

/// The way to a point.
fn way_to(marking: &Marking, pc: PointCode) -> Way
    ensures { result ≡ way_to marking.now pc }
{
    if marking.holds(Mark::PointCode(pc)) {
        Way::Shut(Mark::PointCode(pc))
    } else if marking.holds(Mark::Sccp(pc)) {
        Way::Shut(Mark::Sccp(pc))
    } else {
        Way::Direct(pc)
    }
}

/// The way of a service message to the calling address.
fn way_back(marking: &Marking, origin: PointCode, calling: &Address) -> Way
    ensures { result ≡ way_back marking.now origin calling.now }
{
    if !calling.by_ssn && spot(0, calling).is_some() {
        Way::ByTitle
    } else {
        way_to(marking, calling.pc.unwrap_or(origin))
    }
}

/// Whether the sender asks for the return of the message: the class of a UDT, XUDT or LUDT has return on error (Q.713 section 3.6).
pub fn asks_for_return(message: &Message) -> bool
    ensures { result ≡ asks_for_return message.now }
{
    match message {
        Message::Udt { class, .. } | Message::Xudt { class, .. } | Message::Ludt { class, .. } => {
            wants_return(*class)
        }
        _ => false,
    }
}

// The service message of each type that has one: a line for each type with a hop counter, which starts at 15.
macro_rules! by_type {
    ($message:expr, $cause:expr; $($type:ident => $service:ident)*) => {
        match $message {
            Message::Udt { called, calling, payload, .. } => Some(
                Message::Udts { cause: $cause, called: calling, calling: called, payload }
            ),
            $(Message::$type { called, calling, payload, params, .. } => Some(
                Message::$service { cause: $cause, hops: 15, called: calling, calling: called, payload, params }
            ),)*
            other => {
                drop(other);
                None
            }
        }
    };
}

/// The service message of a UDT, XUDT or LUDT, with the two addresses exchanged. `None` for any other type.
fn service_message(cause: u8, message: Message) -> Option<Message>
    ensures { result ≡ service_message cause message }
{
    by_type! { message, cause;
        Xudt => Xudts
        Ludt => Ludts
    }
}

/// The way of a service message, by its called address.
fn way_of(marking: &Marking, origin: PointCode, message: &Message) -> Way
    ensures { result ≡ option_map_or (way_back marking.now origin) (called_of message.now) (Direct origin) }
{
    match message.called() {
        Some(address) => way_back(marking, origin, address),
        None => Way::Direct(origin),
    }
}

/// The octets and the way of a service message, if it can be written.
fn service_by(
    alloc: Global,
    marking: &Marking,
    origin: PointCode,
    message: &Message,
) -> Result<Option<Service>, OutOfMemory>
    ensures { IfOk result (λ s. s ≡ service_by marking.now origin message.now) }
{
    let way = way_of(marking, origin, message);
    match octets_of(alloc, message)? {
        Some(octets) => Ok(Some(Service { octets, way })),
        None => Ok(None),
    }
}

/// The octets of a message's service message for a return cause, and their way under the marking. `None` if the sender asks for
/// none, or if it cannot be written.
pub fn service_for(
    alloc: Global,
    marking: &Marking,
    origin: PointCode,
    cause: u8,
    message: Message,
) -> Result<Option<Service>, OutOfMemory>
    ensures { IfOk result (λ s. s ≡ service_for marking.now origin cause message) }
{
    if !asks_for_return(&message) {
        drop(message);
        return Ok(None);
    }
    match service_message(cause, message) {
        Some(service) => {
            let by = service_by(alloc, marking, origin, &service);
            drop(service);
            by
        }
        None => Ok(None),
    }
}

/// The message cannot be delivered, for this cause; the marks are those that close its targets.
pub(crate) fn returned(
    alloc: Global,
    here: &Here<'_>,
    message: Message,
    cause: u8,
    marks: List<Mark>,
) -> Result<Arrival, OutOfMemory>
    ensures { IfOk result (λ a. a ≡ returned here.now.marking.now here.now.origin message cause marks) }
{
    let service = service_for(alloc, here.marking, here.origin, cause, message)?;
    Ok(Arrival::Returned {
        cause,
        marks,
        service,
    })
}
