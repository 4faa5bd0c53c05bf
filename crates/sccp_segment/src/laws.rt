// Laws of segments and of pools, over every list of arrivals. They speak of `took`, which is what `Pool::take` answers and
// leaves. A call that finds no memory leaves the pool as it was, and is no arrival.
ghost use Rattle.std.specs.Prelude.{◌≡◌, ◌↔◌, ◌<◌, ℕ, Bool, true, false, List, ◌∷◌, [], ◌++◌, Some, Ok};
ghost use Rattle.sccp_segment.specs.declared.key.Key.{Key};
ghost use Rattle.sccp_segment.specs.declared.segment.Segment.{Segment};
ghost use Rattle.sccp_segment.specs.Keys.{same_key};
ghost use Rattle.sccp_segment.specs.declared.arrival.Arrival.{Arrival};
ghost use Rattle.sccp_segment.specs.declared.taken.Taken.TheVariants.{Whole};
ghost use Rattle.sccp_segment.specs.Cutting.{pieces, segments};
ghost use Rattle.sccp_segment.specs.Reassembly.{IsRefusedOrWhole, answer_to, answers, heard, is_refused, of_key, pooled, whole};

/// The segments that data was cut into are a whole message with that data, whatever segments preceded them.
pub fn pieces_are_whole()
    ensures { (before : List Segment) (payload : List ℕ) (size reference : ℕ) (in_sequence : Bool) → 0 < size →
        whole (before ++ segments true in_sequence reference (pieces payload size)) ≡ Some payload }
{}

/// Keys are distinguished by their values: the calling address and the reference.
pub fn keys_are_values()
    ensures { (a b : Key) → (same_key a b ≡ true) ↔ (a ≡ b) }
{}

/// Take any arrivals at an empty pool, and then a segment that is not refused. Consider the segments of its key that were
/// not refused, itself included. It is answered by whole data exactly if they end in a whole message, and then by the data
/// of that message. Segments of other keys may lie between. (A segment that is refused by a full pool ends nothing.)
pub fn whole_messages()
    ensures { (arrivals : List Arrival) (a : Arrival) (x : List ℕ) → is_refused (pooled [] arrivals) a ≡ false →
        (answer_to (pooled [] arrivals) a ≡ Ok (Whole x)) ↔ (whole (heard a.key (arrivals ++ a ∷ [])) ≡ Some x) }
{}

/// Take any arrivals at an empty pool, and then the segments that data was cut into, one after the other. They are answered
/// by the data at the last one; or the first one is refused, since 64 other messages are under way.
pub fn pieces_come_whole()
    ensures { (arrivals : List Arrival) (key : Key) (payload : List ℕ) (size reference : ℕ) (in_sequence : Bool) → 0 < size →
        IsRefusedOrWhole (answers (pooled [] arrivals) (of_key key (segments true in_sequence reference (pieces payload size)))) payload }
{}
