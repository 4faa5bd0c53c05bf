//! Laws on what is printed. Each call does nothing; its contract is the law.
ghost use Rattle.sccp_tool.specs.Told.{HaveOneBound, LinesTellNumbers};

/// A plan has one bound: the line that accepts it can have no other.
pub fn plans_have_one_bound()
    ensures { HaveOneBound }
{}

/// The text of a message that is routed determines the number of its line and that of its plan, which have up to 64 bits. So two
/// replays that print the same of each line have their messages under plans of the same numbers.
pub fn lines_tell_numbers()
    ensures { LinesTellNumbers }
{}
