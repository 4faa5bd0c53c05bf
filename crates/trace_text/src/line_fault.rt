/// What is wrong with a line, in the order in which a line is tested.
#[derive(Clone, Copy, Debug, PartialEq, Eq)]
pub enum LineKind {
    /// There are more lines than 1,000,000.
    TooMany,
    /// The line has more octets than 8,192 before its line feed.
    TooLong,
    /// The line has no form.
    NotALine,
}

/// A fault of a line, and its number from 1.
#[derive(Clone, Copy, Debug, PartialEq, Eq)]
pub struct LineFault {
    pub number: u32,
    pub kind: LineKind,
}
