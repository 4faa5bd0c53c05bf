//! What a call answers.
ghost use Rattle.std.specs.Prelude.{◌≡◌};
ghost use Rattle.sccp_work.specs.Status.{number_of};

/// How a call ended.
#[derive(Clone, Copy, Debug, PartialEq, Eq)]
pub enum Status {
    /// The command was carried out, and every file that it needed was read to its end.
    Done = 0,
    /// The plan has a bad route.
    Refused = 1,
    /// A relay sent a message that the plan does not have it send because of what arrived.
    Differs = 2,
    /// The words have none of the shapes.
    Usage = 64,
    /// The plan's text does not read.
    BadPlan = 65,
    /// A line has no form or breaks a limit.
    BadTrace = 66,
    /// The plan has more classes than the search takes.
    TooWide = 67,
    /// A file has more octets than the limit.
    TooLong = 68,
    /// The two plans do not have the same relays.
    OtherNodes = 69,
    /// The capture is damaged, and was read up to the damage.
    BadCapture = 70,
    /// Memory was wanting.
    NoMemory = 71,
    /// The files failed.
    ReadFault = 74,
    /// The sink failed.
    WriteFault = 75,
}

impl Status {
    /// The exit status of the program.
    pub fn number(self) -> u8
        ensures { result ≡ number_of self }
    {
        self as u8
    }
}
