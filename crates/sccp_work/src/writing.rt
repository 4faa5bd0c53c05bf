//! Writing a whole text to a sink that takes it in pieces.
ghost use Rattle.std.specs.Prelude.{◌≡◌, ◌++◌, IfOk};
ghost use Rattle.sccp_work.specs.Writing.{Writes};

use crate::status::Status;
use crate::stop::Stop;
use sccp_base::{Octets, OutOfMemory};
use sccp_io::{IoFault, Sink};
use std::alloc::Global;

/// Writes the whole text. If it fails, the sink has taken a front of it.
pub fn put_all<K: Sink>(out: &mut K, text: &[u8]) -> Result<(), Stop>
    ensures { Writes text.now result (K.taken out.old) (K.taken out.new) (K.faults out.old) (K.faults out.new) }
{
    let mut rest = text;
    while !rest.is_empty() {
        match out.put(rest) {
            Ok(count) => rest = &rest[count..],
            Err(IoFault::Failed) => return Err(Stop::Write),
            Err(IoFault::OutOfMemory) => return Err(Stop::Memory),
        }
    }
    Ok(())
}

/// Writes the last text of a work, and answers with this status.
pub fn print_last<K: Sink>(out: &mut K, text: &[u8], status: Status) -> Result<Status, Stop>
    ensures text { Writes text.now result (K.taken out.old) (K.taken out.new) (K.faults out.old) (K.faults out.new) }
    ensures answer { IfOk result (λ s. s ≡ status) }
{
    put_all(out, text)?;
    Ok(status)
}

/// A text after a word.
pub fn after_word(alloc: Global, word: &[u8], text: &[u8]) -> Result<Octets, OutOfMemory>
    ensures { IfOk result (λ all. all ≡ word.now ++ text.now) }
{
    let mut all = Vec::from_slice(alloc, word)?;
    all.extend_from_slice(text)?;
    Ok(Octets::from_vec(all))
}
