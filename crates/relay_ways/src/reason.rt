//! Why an arrival does not explain a message.
ghost use Rattle.std.specs.Prelude.{◌≡◌};
ghost use Rattle.relay_ways.specs.WhyNot.{rank};

/// The first test that a message fails, of those on whether a node sent it because of an arrival. They are in the order of testing:
/// the later one fails, the nearer the message is to what the plan has the node send.
#[derive(Clone, Copy)]
pub enum Reason {
    /// It has another type, and is not the service message of the arrival's type.
    Type,
    /// It is a service message, and the arrival does not ask for its return (Q.713 section 3.6).
    NotAsked,
    /// It has another class, or other message handling.
    Class,
    /// It is a service message, and nothing gives its return cause (Q.713 section 3.12).
    Cause,
    /// It has another calling address.
    Calling,
    /// It has other optional parameters.
    Parameters,
    /// No target leads the message to another point.
    Stays,
    /// Its hop counter is another one.
    Hops,
    /// No target leads it to that point.
    Point,
    /// The national bit of its called address is another one.
    National,
    /// It is to be routed on its title and not on its subsystem number, or the other way round.
    Routing,
    /// The subsystem number of its called address is another one.
    Ssn,
    /// Its title has another selector, or other octets, or one of both has no title.
    Title,
    /// Its title has other digits.
    Digits,
    /// Its called address has a point code that is not the point it goes to.
    CalledPoint,
    /// A target does all this, and under no marking it is the first open one.
    Closed,
}

impl Reason {
    /// The place of the test in the order of testing, from 0.
    pub fn rank(self) -> u8
        ensures { result ≡ rank self }
    {
        match self {
            Reason::Type => 0,
            Reason::NotAsked => 1,
            Reason::Class => 2,
            Reason::Cause => 3,
            Reason::Calling => 4,
            Reason::Parameters => 5,
            Reason::Stays => 6,
            Reason::Hops => 7,
            Reason::Point => 8,
            Reason::National => 9,
            Reason::Routing => 10,
            Reason::Ssn => 11,
            Reason::Title => 12,
            Reason::Digits => 13,
            Reason::CalledPoint => 14,
            Reason::Closed => 15,
        }
    }
}
