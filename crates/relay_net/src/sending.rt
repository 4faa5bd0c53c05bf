//! Messages to be sent, as outcomes.
ghost use Rattle.std.specs.Prelude.{◌≡◌, ◌≤◌, [], map, length};
ghost use Rattle.std.specs.Vec.{vec_len, vec_capacity};

use crate::outcome::Outcome;
use sccp_base::List;
use sccp_manage::Sent;

/// What is to be sent, as outcomes, in a list that has room for them.
pub(crate) fn as_outcomes(room: Vec<Outcome>, sent: List<Sent>) -> List<Outcome>
    requires empty { room.items ≡ [] }
    requires none { vec_len room ≡ 0 }
    requires room { length sent ≤ vec_capacity room }
    ensures { result ≡ map Outcome.Sent sent }
{
    let mut outcomes = room;
    for message in sent.into_vec() {
        outcomes.push_reserved(Outcome::Sent(message));
    }
    List::from_vec(outcomes)
}
