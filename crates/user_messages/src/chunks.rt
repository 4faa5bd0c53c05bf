// Which DATA chunks belong together (RFC 9260, sections 3.3.1 and 6.9).
ghost use Rattle.std.specs.Prelude.{◌≡◌};
ghost use Rattle.packet_layers.specs.Values.{data_as};
ghost use Rattle.user_messages.specs.Chunks.{goes_on, same_flag, same_flow, same_stream};

use packet_layers::{Data, Flow};

fn same_flow(a: &Flow, b: &Flow) -> bool
    ensures { result ≡ same_flow a.now b.now }
{
    a.source == b.source && a.destination == b.destination && a.tag == b.tag
}

fn same_flag(a: bool, b: bool) -> bool
    ensures { result ≡ same_flag a b }
{
    if a { b } else { !b }
}

fn same_stream(a: &Data<'_>, b: &Data<'_>) -> bool
    ensures { result ≡ same_stream (data_as a.now) (data_as b.now) }
{
    a.stream == b.stream
        && a.protocol == b.protocol
        && same_flag(a.unordered, b.unordered)
        && (a.unordered || a.sequence == b.sequence)
}

/// Whether the second chunk goes on with the user message of the first.
#[tactic(auto, unfolding(crate::specs::Chunks::goes_on))]
pub fn goes_on(a: &Data<'_>, b: &Data<'_>) -> bool
    ensures { result ≡ goes_on (data_as a.now) (data_as b.now) }
{
    b.tsn == a.tsn.wrapping_add(1)
        && !a.ends
        && !b.begins
        && same_flow(&a.flow, &b.flow)
        && same_stream(a, b)
}
