//! What the work on a capture file prints.
ghost use Rattle.std.specs.Prelude.{◌≡◌, List, ℕ, Option};
ghost use Rattle.capture_trace.specs.Traced.{lines_of_capture};
ghost use Rattle.capture_trace.specs.Words.{text_of_lines};
ghost use Rattle.plan_model.specs.Network.{Network};
ghost use Rattle.sccp_capture.specs.Printing.{octets_work, status_of_octets};
ghost use Rattle.sccp_io.specs.Files.{Contents};
ghost use Rattle.sccp_work.specs.Work.{Ends};
ghost use Rattle.sccp_work.specs.declared.status.Status.{Status};

/// The work on a capture with these octets ends as they say, and prints the lines of the whole capture.
pub fn what_is_printed_are_the_lines()
    ensures { (contents : Option Contents) (plan : Network) (octets : List ℕ) (status : Status) (text : List ℕ)
        → Ends contents (octets_work plan octets) status text
        → (status ≡ status_of_octets octets) × (text ≡ text_of_lines (lines_of_capture plan octets)) }
{}
