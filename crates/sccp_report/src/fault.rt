//! The words for why octets are no message.
ghost use Rattle.std.specs.Prelude.{◌≡◌, ◌++◌, OnOk};
ghost use Rattle.sccp_report.specs.Faults.{split_fault_words, address_fault_words, fault_words};

use crate::text::Text;
use sccp_address::AddressFault;
use sccp_base::OutOfMemory;
use sccp_layout::SplitFault;
use sccp_message::DecodeFault;

fn put_split_fault(text: &mut Text, fault: SplitFault) -> Result<(), OutOfMemory>
    ensures { OnOk result (text.new ≡ text.old ++ split_fault_words fault) }
{
    match fault {
        SplitFault::UnknownType => text.put(b"unknown type"),
        SplitFault::Short => text.put(b"short"),
        SplitFault::BadPointer(place) => text.put_numbered(b"bad pointer ", u32::from(place)),
        SplitFault::BadPart(place) => text.put_numbered(b"bad part ", u32::from(place)),
        SplitFault::BadOptional => text.put(b"bad optional"),
        SplitFault::OutOfMemory => Ok(()),
    }
}

fn put_address_fault(text: &mut Text, fault: AddressFault) -> Result<(), OutOfMemory>
    ensures { OnOk result (text.new ≡ text.old ++ address_fault_words fault) }
{
    match fault {
        AddressFault::Empty => text.put(b"empty"),
        AddressFault::Short => text.put(b"short"),
        AddressFault::Extra => text.put(b"extra"),
        AddressFault::OddWithoutDigits => text.put(b"odd without digits"),
        AddressFault::OutOfMemory => Ok(()),
    }
}

/// Appends why octets are no message. Want of memory is no fault of theirs, and has no words.
pub fn put_fault(text: &mut Text, fault: DecodeFault) -> Result<(), OutOfMemory>
    ensures { OnOk result (text.new ≡ text.old ++ fault_words fault) }
{
    match fault {
        DecodeFault::Split(fault) => put_split_fault(text, fault),
        DecodeFault::Address(place, fault) => {
            text.put_numbered(b"address ", u32::from(place))?;
            text.put(b" ")?;
            put_address_fault(text, fault)
        }
        DecodeFault::Field(name) => {
            text.put(b"field ")?;
            text.put_octet(name)
        }
        DecodeFault::OutOfMemory => Ok(()),
    }
}
