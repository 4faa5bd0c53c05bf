//! The text on what becomes of the messages of a batch.
ghost use Rattle.std.specs.Prelude.{◌≡◌, ◌<◌, ◌++◌, ◌∷◌, [], All, map, length, IfOk, OnOk};
ghost use Rattle.relay_net.specs.Batches.{CanBeDone, due_after};
ghost use Rattle.relay_net.specs.States.{markings_of};
ghost use Rattle.sccp_replay.specs.Incoming.{incoming_in};
ghost use Rattle.sccp_replay.specs.Replay.{routes, told_at};
ghost use Rattle.sccp_replay.specs.Replayers.{AreRouted, CanFollow, left_of, number_in, settled_in, told_of};

use crate::incoming::Incoming;
use crate::replayer::Replayer;
use crate::settled::Settled;
use relay_net::Served;
use sccp_base::OutOfMemory;
use sccp_report::{Text, put_served};
use std::alloc::Global;

/// Does what the end of a message's journey leaves to be done, and appends the text of the journey.
fn tell_served(
    at: &mut Replayer,
    text: &mut Text,
    line: u32,
    incoming: &Incoming,
    served: &Served,
) -> Result<(), OutOfMemory>
    requires { CanBeDone (length at.old.first.nodes) (due_after
        (incoming_in incoming.now) served.now.journey.path served.now.journey.end) }
    ensures text { OnOk result (text.new ≡ text.old ++ (told_of at.old.first at.old.states
        (routes line (incoming_in incoming.now) 0) (served.now ∷ [])).text) }
    ensures at { OnOk result (at.new
        ≡ record at.old {
          states = (told_of at.old.first at.old.states (routes line (incoming_in incoming.now) 0)
              (served.now ∷ [])).states;
        }) }
{
    let outcomes = at.apply_after(incoming, &served.journey)?;
    put_served(text, at.first(), line, served, &outcomes)
}

/// Appends the text of a settled line, if these answers are left. It gives back the answers that are left after it.
fn tell_line<'a>(
    at: &mut Replayer,
    text: &mut Text,
    settled: &Settled,
    served: &'a [Served],
) -> Result<&'a [Served], OutOfMemory>
    requires { CanFollow (length at.old.first.nodes) (settled_in settled.now) served.now }
    ensures text { OnOk result (text.new ≡ text.old ++ (told_of at.old.first at.old.states (settled_in settled.now) served.now).text) }
    ensures at { OnOk result (at.new
        ≡ record at.old { states = (told_of at.old.first at.old.states (settled_in settled.now) served.now).states }) }
    ensures left { IfOk result (λ left. left.now ≡ left_of (settled_in settled.now) served.now) }
{
    match settled {
        Settled::Prints(piece) => {
            text.put(piece.as_slice())?;
            Ok(served)
        }
        Settled::Routes { line, incoming, .. } => {
            let [one, left @ ..] = served else {
                unreachable!()
            };
            tell_served(at, text, *line, incoming, one)?;
            Ok(left)
        }
    }
}

/// The text of a batch whose lines are settled and whose messages are routed.
pub fn tell(
    alloc: Global,
    at: &mut Replayer,
    settled: &[Settled],
    served: &[Served],
) -> Result<Text, OutOfMemory>
    requires { AreRouted at.old (markings_of at.old.states) (map settled_in settled.now) served.now }
    ensures text { IfOk result (λ text. text ≡ (told_at at.old (map settled_in settled.now) (map number_in served.now)).text) }
    ensures at { OnOk result (at.new
        ≡ record at.old { states = (told_at at.old (map settled_in settled.now) (map number_in served.now)).states }) }
{
    let mut text = Text::new(alloc);
    let mut left = served;
    for one in settled {
        left = tell_line(at, &mut text, one, left)?;
    }
    Ok(text)
}
