//! Laws of the printed lines.
ghost use Rattle.watch_text.specs.Told.{LineTellsKind, LineTellsNumber, LineTellsReason};

/// The line of a message says what it is of. Two lines that are printed alike have the same number. If both are on one message, their
/// verdicts are of one kind, so no explained message is printed as an unexplained one; and if both explain it, it is by the same
/// arrival. Numbers have up to 64 bits.
pub fn line_tells_verdict()
    ensures number { LineTellsNumber }
    ensures kind { LineTellsKind }
    ensures reason { LineTellsReason }
{}
