// The main properties of the definitions, over any capture. Each function has a law as its contract, and does nothing.
ghost use Rattle.std.specs.Prelude.{ℕ, All, ◌<◌, ◌^◌, List, length};
ghost use Rattle.hex.specs.Hex.{IsBytes};
ghost use Rattle.capture_file.specs.Packets.{Told};
ghost use Rattle.plan_model.specs.Network.{IsPlan, Network};
ghost use Rattle.capture_trace.specs.Forms.{FitsTrace, HasOctets, IsLine, IsReadLine};
ghost use Rattle.capture_trace.specs.Traced.{lines_of, lines_of_capture};

/// Each line of a capture is a message for a relay of the plan, of at most 4,072 octets for SCCP, or a line that a trace skips.
pub fn lines_have_forms()
    ensures { (plan : Network) (told : Told) → All (IsLine plan) (lines_of plan told) }
{}

/// Each line of a capture of fewer than 2^64 packets has at most 8,192 octets, and no line feed or carriage return is among
/// them. So the reader of a trace refuses none for its length, and takes each for one line.
pub fn lines_fit_a_trace()
    ensures { (plan : Network) (told : Told) → length told.packets < 2 ^ 64 → All FitsTrace (lines_of plan told) }
{}

/// A message that is printed of a capture is read again. If the data of its packets are octets, as those of each file are, the reader
/// of a trace takes each line for nothing, or for the message that the line was printed for: the same relay, the same origin and
/// the same octets.
pub fn messages_are_read_again()
    ensures packets { (plan : Network) (told : Told) → IsPlan plan → All HasOctets told.packets →
        All (IsReadLine plan) (lines_of plan told) }
    ensures file { (plan : Network) (b : List ℕ) → IsPlan plan → IsBytes b → All (IsReadLine plan) (lines_of_capture plan b) }
{}
