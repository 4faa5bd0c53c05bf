//! The change of the called address and the hop counter of connectionless messages.
ghost use Rattle.std.specs.Prelude.{◌≡◌};
ghost use Rattle.sccp_message.specs.Unitdata.{called_of};
ghost use Rattle.sccp_scrc.specs.Unitdata.{redirected};

use sccp_address::Address;
use sccp_message::Message;
use std::mem;

// Gives a message of each type that has a called address another one; its other fields stay. The call has a line for each
// group of types, each with the name of its first field. The types with a hop counter are in the last one.
macro_rules! by_type {
    ($message:expr, $called:expr, $hops:expr; $($plain:ident $first:ident)*; $($counted:ident $front:ident)*) => {
        match $message {
            $(Message::$plain { $first, called, calling, payload } => (
                Message::$plain { $first, called: $called, calling, payload },
                Some(called),
            ),)*
            $(Message::$counted { $front, called, calling, payload, params, .. } => (
                Message::$counted { $front, hops: $hops, called: $called, calling, payload, params },
                Some(called),
            ),)*
            other => (other, None),
        }
    };
}

/// The message with another called address and, if it has a hop counter, another one; and the called address that it had.
pub(crate) fn redirect(message: Message, called: Address, hops: u8) -> (Message, Option<Address>)
    ensures changed { result.0 ≡ redirected called (λ n. hops) message }
    ensures old { result.1 ≡ called_of message }
{
    by_type! { message, called, hops;
        Udt class Udts cause;
        Xudt class Xudts cause Ludt class Ludts cause
    }
}

// The change in place, by types as above.
macro_rules! by_type_in_place {
    ($message:expr, $called:expr, $hops:expr; $($plain:ident)*; $($counted:ident)*) => {
        match $message {
            $(Message::$plain { called, .. } => Some(mem::replace(called, $called)),)*
            $(Message::$counted { called, hops, .. } => {
                *hops = $hops;
                Some(mem::replace(called, $called))
            })*
            _ => None,
        }
    };
}

/// The same in place: the called address that the message had.
pub(crate) fn redirect_in_place(message: &mut Message, to: Address, count: u8) -> Option<Address>
    ensures changed { message.new ≡ redirected to (λ n. count) message.old }
    ensures old { result ≡ called_of message.old }
{
    by_type_in_place! { message, to, count; Udt Udts; Xudt Xudts Ludt Ludts }
}
