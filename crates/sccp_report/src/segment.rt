//! The words for what became of a segment (Q.714 section 4.1).
ghost use Rattle.std.specs.Prelude.{◌≡◌, ◌++◌, OnOk};
ghost use Rattle.std.specs.List.{flat_map};
ghost use Rattle.sccp_report.specs.Served.{why_number, taken_words, segment_words};

use crate::text::Text;
use relay_net::Outcome;
use sccp_base::OutOfMemory;
use sccp_segment::{Taken, Why};

// The number that the text has for each reason to give a segment up.
fn why_number(why: Why) -> u32
    ensures { result ≡ why_number why }
{
    match why {
        Why::NotFirst => 1,
        Why::OutOfStep => 2,
        Why::Restarted => 3,
    }
}

#[tactic(auto, unfolding(crate::specs::Served::taken_words))]
fn put_taken(text: &mut Text, taken: &Taken) -> Result<(), OutOfMemory>
    ensures { OnOk result (text.new ≡ text.old ++ taken_words taken.now) }
{
    match taken {
        Taken::More => text.put(b"more"),
        Taken::Whole(octets) => {
            text.put(b"whole ")?;
            text.put_octets(octets.as_slice())
        }
        Taken::Dropped(why) => text.put_numbered(b"dropped ", why_number(*why)),
    }
}

#[tactic(auto, unfolding(crate::specs::Served::segment_words))]
fn put_segment(text: &mut Text, outcome: &Outcome) -> Result<(), OutOfMemory>
    ensures { OnOk result (text.new ≡ text.old ++ segment_words outcome.now) }
{
    match outcome {
        Outcome::Sent(_) => Ok(()),
        Outcome::Segment(taken) => {
            text.put(b" segment ")?;
            put_taken(text, taken)
        }
        Outcome::PoolFull => text.put(b" segment full"),
    }
}

/// Appends what became of a segment at its last node.
pub fn put_segments(text: &mut Text, outcomes: &[Outcome]) -> Result<(), OutOfMemory>
    ensures { OnOk result (text.new ≡ text.old ++ flat_map segment_words outcomes.now) }
{
    for outcome in outcomes {
        put_segment(text, outcome)?;
    }
    Ok(())
}
