//! The texts of causes.
ghost use Rattle.std.specs.Prelude.{◌≡◌};
ghost use Rattle.std.specs.Option.{option_copied};
ghost use Rattle.sccp_message.specs.Causes.{text_of};

/// The list of causes that a number is from: return, refusal or error causes (Q.713 sections 3.12, 3.15 and 3.14).
#[derive(Clone, Copy)]
pub enum CauseTable {
    /// Return causes (3.12).
    Return,
    /// Refusal causes (3.15).
    Refusal,
    /// Error causes (3.14).
    Fault,
}

// The text in the line of a value. `None` if no line has it.
macro_rules! text {
    ($value:expr; $($number:literal $text:literal)*) => {
        match $value {
            $($number => Some($text),)*
            _ => None,
        }
    };
}

/// The text of a cause, as it is printed. `None` for a value without one.
pub fn cause_text(table: CauseTable, value: u8) -> Option<&'static str>
    ensures { option_copied result ≡ text_of table value }
{
    match table {
        CauseTable::Return => text! { value;
            0 "no translation for an address of such nature"
            1 "no translation for this specific address"
            2 "subsystem congestion"
            3 "subsystem failure"
            4 "unequipped user"
            5 "MTP failure"
            6 "network congestion"
            7 "unqualified"
            8 "error in message transport"
            9 "error in local processing"
            10 "destination cannot perform reassembly"
            11 "SCCP failure"
            12 "hop counter violation"
            13 "segmentation not supported"
            14 "segmentation failure"
        },
        CauseTable::Refusal => text! { value;
            4 "destination address unknown"
            5 "destination inaccessible"
            6 "QoS not available non-transient"
            7 "QoS not available transient"
            10 "subsystem failure"
            16 "hop counter violation"
            17 "SCCP failure"
            18 "no translation for an address of such nature"
            19 "unequipped user"
        },
        CauseTable::Fault => text! { value;
            0 "unassigned destination reference"
            1 "inconsistent source reference"
        },
    }
}
