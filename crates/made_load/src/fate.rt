//! How journeys end, as far as it is counted.
ghost use Rattle.std.specs.Prelude.{◌≡◌, length};
ghost use Rattle.made_load.specs.Fates.{fate_of};

use relay_net::{Back, End, Journey};
use sccp_base::Boxed;
use sccp_message::Message;

/// How a journey ends, as far as it is counted.
#[derive(Clone, Copy)]
pub(crate) enum Fate {
    /// The message went to its destination.
    Ended,
    /// It was returned.
    Returned,
    /// Another end.
    Other,
}

// What is not counted goes out of scope in functions of its own: the drop of a message is spelled out type by type.
fn uncounted(_message: Boxed<Message>) -> Fate
    ensures { result ≡ Fate.Other }
{
    Fate::Other
}

fn fate_of(end: End) -> Fate
    ensures { result ≡ fate_of end }
{
    match end {
        End::Ended { .. } => Fate::Ended,
        End::Local { message, .. } => uncounted(message),
        End::Returned { .. } => Fate::Returned,
        End::Connection(message) => uncounted(message),
        End::Management(message) => uncounted(message),
        End::Undecodable(_) => Fate::Other,
        End::Cut => Fate::Other,
    }
}

fn forget_end(end: Option<End>) {
    if let Some(end) = end {
        let _fate = fate_of(end);
    }
}

/// Drops the way of a service message, which does not count.
fn forget(back: Option<Boxed<Back>>) {
    if let Some(back) = back {
        let Back {
            octets: _octets,
            way: _way,
            path: _path,
            end,
        } = back.into_inner();
        forget_end(end);
    }
}

/// The number of nodes that a message reached, and how its journey ended.
pub(crate) fn passed(journey: Journey) -> (usize, Fate)
    ensures nodes { result.0 ≡ length journey.path }
    ensures fate { result.1 ≡ fate_of journey.end }
{
    let Journey { path, end, back } = journey;
    forget(back);
    (path.as_slice().len(), fate_of(end))
}
