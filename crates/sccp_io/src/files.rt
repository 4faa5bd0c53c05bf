//! Files that are read in pieces, one after the other, with a second one beside.
ghost use Rattle.std.specs.Prelude.{◌≡◌, ℕ, ◌<◌, List, Bool, Option, is_some, length};
ghost use Rattle.sccp_io.specs.Files.{Contents, BeginsFile, TakesNext};

use crate::IoFault;

/// Files by name. One may be open, and a second one beside it. Each is read from its first octet on. Want of memory is the
/// only fault that may go uncounted.
pub trait Files {
    /// The octets of each file by its name, if the object shows them. No call changes them.
    ghost contents: { Self → Option Contents };

    /// What is left of the open file, if the object shows it. Before the first `begin` nothing is left.
    ghost left: { Self → Option (List ℕ) };

    /// What is left of the second open file, if the object shows it. Before the first `begin_beside` nothing is left.
    ghost left_beside: { Self → Option (List ℕ) };

    /// How often the object has failed. The count never falls.
    ghost faults: { Self → ℕ };

    /// Whether the object fails only at the begin of a file that it lacks. No call changes it.
    ghost sound: { Self → Bool };

    /// Opens the file of that name in place of the one that was open, at its first octet. `Failed` is answered only if the
    /// count of faults rose. It rises at a name that the shown contents lack.
    fn begin(&mut self, name: &str) -> Result<(), IoFault>
        ensures begins { BeginsFile name.now result (contents self.old) (sound self.old) (left self.old) (left self.new)
            (faults self.old) (faults self.new) }
        ensures beside { left_beside self.new ≡ left_beside self.old }
        ensures contents { contents self.new ≡ contents self.old }
        ensures soundness { sound self.new ≡ sound self.old };

    /// Puts the next octets of the open file at the front of the buffer, and gives their number. It is at most the buffer's
    /// length, and 0 only at the end of the file. `Failed` is answered only if the count of faults rose.
    fn take(&mut self, buffer: &mut [u8]) -> Result<usize, IoFault>
        requires { 0 < length buffer.old }
        ensures takes { TakesNext buffer.new result (sound self.old) (left self.old) (left self.new)
            (faults self.old) (faults self.new) }
        ensures beside { left_beside self.new ≡ left_beside self.old }
        ensures contents { contents self.new ≡ contents self.old }
        ensures soundness { sound self.new ≡ sound self.old };

    /// As `begin`, for the second open file.
    fn begin_beside(&mut self, name: &str) -> Result<(), IoFault>
        ensures begins { BeginsFile name.now result (contents self.old) (sound self.old) (left_beside self.old) (left_beside self.new)
            (faults self.old) (faults self.new) }
        ensures other { left self.new ≡ left self.old }
        ensures contents { contents self.new ≡ contents self.old }
        ensures soundness { sound self.new ≡ sound self.old };

    /// As `take`, for the second open file.
    fn take_beside(&mut self, buffer: &mut [u8]) -> Result<usize, IoFault>
        requires { 0 < length buffer.old }
        ensures takes { TakesNext buffer.new result (sound self.old) (left_beside self.old) (left_beside self.new)
            (faults self.old) (faults self.new) }
        ensures other { left self.new ≡ left self.old }
        ensures contents { contents self.new ≡ contents self.old }
        ensures soundness { sound self.new ≡ sound self.old };

    /// Contents and what is left are both shown, or neither is.
    ghost both_told: { (files : Self) → is_some (left files) ≡ is_some (contents files) };

    /// The same holds for the second open file.
    ghost both_told_beside: { (files : Self) → is_some (left_beside files) ≡ is_some (contents files) };
}
