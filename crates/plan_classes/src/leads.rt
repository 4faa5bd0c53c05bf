//! The image of a class under a target.
use crate::class::Class;
use sccp_base::PointCode;

/// What a target makes of the titles of a class (Q.714 section 2).
#[derive(Clone, Copy)]
pub enum Image {
    /// They go on to another relay, as exactly these titles.
    Next(Class),
    /// They all have this destination. The subsystem number is the class's if the target names none.
    Ends { pc: PointCode, ssn: u8 },
    /// The destination is the class's node itself, which does not have the subsystem.
    NotEquipped,
    /// The target is a relay, and the longest title would get more than 32 digits.
    TooLong,
}
