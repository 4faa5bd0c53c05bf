/// What parts a type of message has (Q.713 sections 1 and 4).
#[derive(Clone, Copy, Debug, PartialEq, Eq)]
pub struct Layout {
    /// How many octets the mandatory parameters of fixed length have together, without the type octet.
    pub fixed: u8,
    /// How many mandatory parameters of variable length there are, each with its pointer.
    pub variable: u8,
    /// Whether a pointer to an optional part follows.
    pub optional: bool,
    /// Whether pointers, and the length of the data, have two octets, as in LUDT and LUDTS.
    pub long: bool,
}
