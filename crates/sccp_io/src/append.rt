//! What the sinks in memory take.
ghost use Rattle.std.specs.Prelude.{◌≡◌, ◌++◌, length, IfOk, IfErr, OnOk, OnErr};

use crate::IoFault;

/// Appends the whole piece. If memory runs out, nothing is appended.
pub fn append(taken: &mut Vec<u8>, piece: &[u8]) -> Result<usize, IoFault>
    ensures count { IfOk result (λ n. n ≡ length piece.now) }
    ensures taken { OnOk result (taken.new.items ≡ taken.old.items ++ piece.now) }
    ensures err { OnErr result (taken.new.items ≡ taken.old.items) }
    ensures memory { IfErr result (λ fault. fault ≡ IoFault.OutOfMemory) }
{
    match taken.extend_from_slice(piece) {
        Ok(()) => Ok(piece.len()),
        Err(_) => Err(IoFault::OutOfMemory),
    }
}
