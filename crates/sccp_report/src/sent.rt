//! The lines of the messages that are sent because of a line of the trace.
ghost use Rattle.std.specs.Prelude.{◌≡◌, ◌++◌, OnOk};
ghost use Rattle.sccp_report.specs.Served.{sent_line, sent_lines};

use crate::text::Text;
use crate::values::put_point_code;
use relay_net::Outcome;
use sccp_base::OutOfMemory;

// The line on a message that is sent because of that line of the trace; no other outcome has one.
#[tactic(auto, unfolding(crate::specs::Served::sent_line))]
fn put_sent_line(text: &mut Text, line: u32, outcome: &Outcome) -> Result<(), OutOfMemory>
    ensures { OnOk result (text.new ≡ text.old ++ sent_line line outcome.now) }
{
    match outcome {
        Outcome::Sent(sent) => {
            text.put_number(line)?;
            text.put(b" sends ")?;
            put_point_code(text, sent.to)?;
            text.put(b" ")?;
            text.put_octets(sent.octets.as_slice())?;
            text.put(b"\n")
        }
        Outcome::Segment(_) => Ok(()),
        Outcome::PoolFull => Ok(()),
    }
}

/// Appends a line for each message that is sent.
pub fn put_sent_lines(text: &mut Text, line: u32, outcomes: &[Outcome]) -> Result<(), OutOfMemory>
    ensures { OnOk result (text.new ≡ text.old ++ sent_lines line outcomes.now) }
{
    for outcome in outcomes {
        put_sent_line(text, line, outcome)?;
    }
    Ok(())
}
