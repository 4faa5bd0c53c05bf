// Laws of the segments of every long message that can be cut. They speak of `sent_on`, which gives the messages whose octets
// `send_on` answers.
ghost use Rattle.std.specs.Prelude.{◌≡◌, ◌<◌, ◌≤◌, ℕ, List, Some, []};
ghost use Rattle.sccp_address.specs.declared.address.Address.{Address};
ghost use Rattle.sccp_layout.specs.Parameter.{Parameter};
ghost use Rattle.sccp_message.specs.declared.message.Message.{Message};
ghost use Rattle.sccp_message.specs.declared.message.Message.TheVariants.{Ludt};
ghost use Rattle.sccp_segment.specs.declared.arrival.Arrival.{Arrival};
ghost use Rattle.sccp_segment.specs.Cutting.{piece_count};
ghost use Rattle.sccp_segment.specs.Reassembly.{IsRefusedOrWhole, answers, pooled, whole};
ghost use Rattle.long_segments.specs.Sending.{sent_on};
ghost use Rattle.long_segments.specs.Carried.{arrivals_in, segments_in};

/// The segments that a long message is sent on in are a whole message, with its data.
pub fn segments_carry_the_data()
    ensures { (class hops : ℕ) (called calling : Address) (payload : List ℕ) (params : List Parameter) (size reference : ℕ) → 0 < size
        → piece_count payload size ≤ 16 →
        whole (segments_in (sent_on (Ludt class hops called calling payload params) size reference)) ≡ Some payload }
{}

/// Let a pool be given these segments one after another, after any arrivals. It answers the data at the last one; or it
/// refuses the first one, since 64 other messages are under way.
pub fn a_pool_answers_the_data()
    ensures { (arrivals : List Arrival) (class hops : ℕ) (called calling : Address) (payload : List ℕ) (params : List Parameter)
        (size reference : ℕ) → 0 < size → piece_count payload size ≤ 16 →
        IsRefusedOrWhole (answers (pooled [] arrivals) (arrivals_in
        (sent_on (Ludt class hops called calling payload params) size reference))) payload }
{}
