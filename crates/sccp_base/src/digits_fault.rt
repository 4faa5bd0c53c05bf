/// Why octets or a text are not digits of a global title.
#[derive(Clone, Copy, Debug, PartialEq, Eq)]
pub enum DigitsFault {
    /// There are more than 32.
    TooMany,
    /// The octet at this place of the text is no hexadecimal digit.
    NotDigit(usize),
}
