//! The lines of a message, field by field.
ghost use Rattle.std.specs.Prelude.{◌≡◌, ◌++◌, OnOk};
ghost use Rattle.sccp_report.specs.Fields.{hops as hops_line, called as called_line, calling as calling_line, data_line, parameter_lines};
ghost use Rattle.sccp_report.specs.MessageText.{message_lines, lines_if, is_unit, has_parameters, is_of_data, is_of_references};

use crate::address::{put_called, put_calling};
use crate::fields::{
    put_class, put_credit, put_data, put_destination, put_error_cause, put_hops, put_more,
    put_parameters, put_receive, put_refusal_cause, put_release_cause, put_reset_cause,
    put_return_cause, put_send, put_source,
};
use crate::text::Text;
use sccp_address::Address;
use sccp_base::{List, Octets, OutOfMemory};
use sccp_layout::Param;
use sccp_message::Message;

// The addresses and the data of a connectionless message.
fn put_unit(
    text: &mut Text,
    called: &Address,
    calling: &Address,
    payload: &Octets,
) -> Result<(), OutOfMemory>
    ensures { OnOk result (text.new ≡ text.old ++ (called_line called.now ++ calling_line calling.now ++ data_line payload.now)) }
{
    put_called(text, called)?;
    put_calling(text, calling)?;
    put_data(text, payload)
}

// The same, after a hop counter and before the parameters.
fn put_counted_unit(
    text: &mut Text,
    hops: u8,
    called: &Address,
    calling: &Address,
    payload: &Octets,
    params: &List<Param>,
) -> Result<(), OutOfMemory>
    ensures { OnOk result (text.new ≡ text.old ++ (hops_line hops ++ called_line called.now ++ calling_line calling.now
        ++ data_line payload.now ++ parameter_lines params.now)) }
{
    put_hops(text, hops)?;
    put_unit(text, called, calling, payload)?;
    put_parameters(text, params)
}

// What is appended for a message of a kind: a line for each type, with its name and what is put for its fields in order.
// The last of these, after the arrow, gives the answer. Nothing is appended for another kind.
macro_rules! by_type {
    ($text:ident, $message:ident; $($variant:ident
        { $($field:ident),* } $name:literal: $($put:ident($($value:expr),*)),* => $last:ident($($end:expr),*);)*) => {
        match $message {
            $(Message::$variant { $($field),* } => {
                $text.put($name)?;
                $($put($text, $($value),*)?;)*
                $last($text, $($end),*)
            })*
            _ => Ok(()),
        }
    };
}

fn put_unit_type(text: &mut Text, message: &Message) -> Result<(), OutOfMemory>
    ensures { OnOk result (text.new ≡ text.old ++ lines_if is_unit message.now) }
{
    by_type! { text, message;
        Udt { class, called, calling, payload } b"UDT\n": put_class(*class) => put_unit(called, calling, payload);
        Udts { cause, called, calling, payload } b"UDTS\n": put_return_cause(*cause) => put_unit(called, calling, payload);
        Xudt { class, hops, called, calling, payload, params } b"XUDT\n": put_class(*class) => put_counted_unit(*hops, called, calling,
            payload, params);
        Xudts { cause, hops, called, calling, payload, params } b"XUDTS\n": put_return_cause(*cause) => put_counted_unit(*hops, called,
            calling, payload, params);
        Ludt { class, hops, called, calling, payload, params } b"LUDT\n": put_class(*class) => put_counted_unit(*hops, called, calling,
            payload, params);
        Ludts { cause, hops, called, calling, payload, params } b"LUDTS\n": put_return_cause(*cause) => put_counted_unit(*hops, called,
            calling, payload, params);
    }
}

fn put_with_parameters(text: &mut Text, message: &Message) -> Result<(), OutOfMemory>
    ensures { OnOk result (text.new ≡ text.old ++ lines_if has_parameters message.now) }
{
    by_type! { text, message;
        Cr { slr, class, called, params } b"CR\n": put_source(*slr), put_class(*class), put_called(called) => put_parameters(params);
        Cc { dlr, slr, class, params } b"CC\n": put_destination(*dlr), put_source(*slr), put_class(*class) => put_parameters(params);
        Cref { dlr, cause, params } b"CREF\n": put_destination(*dlr), put_refusal_cause(*cause) => put_parameters(params);
        Rlsd { dlr, slr, cause, params } b"RLSD\n": put_destination(*dlr), put_source(*slr),
            put_release_cause(*cause) => put_parameters(params);
    }
}

fn put_of_data(text: &mut Text, message: &Message) -> Result<(), OutOfMemory>
    ensures { OnOk result (text.new ≡ text.old ++ lines_if is_of_data message.now) }
{
    by_type! { text, message;
        Dt1 { dlr, more, payload } b"DT1\n": put_destination(*dlr), put_more(*more) => put_data(payload);
        Dt2 { dlr, send, receive, more, payload } b"DT2\n": put_destination(*dlr), put_send(*send), put_receive(*receive),
            put_more(*more) => put_data(payload);
        Ak { dlr, receive, credit } b"AK\n": put_destination(*dlr), put_receive(*receive) => put_credit(*credit);
        Ed { dlr, payload } b"ED\n": put_destination(*dlr) => put_data(payload);
        It { dlr, slr, class, send, receive, more, credit } b"IT\n": put_destination(*dlr), put_source(*slr), put_class(*class),
            put_send(*send), put_receive(*receive), put_more(*more) => put_credit(*credit);
    }
}

fn put_of_references(text: &mut Text, message: &Message) -> Result<(), OutOfMemory>
    ensures { OnOk result (text.new ≡ text.old ++ lines_if is_of_references message.now) }
{
    by_type! { text, message;
        Rlc { dlr, slr } b"RLC\n": put_destination(*dlr) => put_source(*slr);
        Ea { dlr } b"EA\n": => put_destination(*dlr);
        Rsr { dlr, slr, cause } b"RSR\n": put_destination(*dlr), put_source(*slr) => put_reset_cause(*cause);
        Rsc { dlr, slr } b"RSC\n": put_destination(*dlr) => put_source(*slr);
        Err { dlr, cause } b"ERR\n": put_destination(*dlr) => put_error_cause(*cause);
    }
}

/// Appends the type of a message, and a line for each field and each parameter in their order (Q.713 section 4).
#[tactic(auto, using(crate::proofs::ByKind::by_kind))]
pub fn put_message(text: &mut Text, message: &Message) -> Result<(), OutOfMemory>
    ensures { OnOk result (text.new ≡ text.old ++ message_lines message.now) }
{
    put_unit_type(text, message)?;
    put_with_parameters(text, message)?;
    put_of_data(text, message)?;
    put_of_references(text, message)
}
