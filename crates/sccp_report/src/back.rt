//! The words for the service message that returns a message to its sender.
ghost use Rattle.std.specs.Prelude.{◌≡◌, ◌++◌, OnOk};
ghost use Rattle.std.specs.Option.{option_map_or};
ghost use Rattle.std.specs.Prelude.{[]};
ghost use Rattle.sccp_report.specs.Served.{ended_words, back_end_words, way_words, back_words};

use crate::mark::{put_destination, put_mark};
use crate::node::put_path;
use crate::text::Text;
use crate::values::put_point_code;
use plan_model::Plan;
use relay_net::{Back, End};
use sccp_base::{Boxed, OutOfMemory, PointCode};
use sccp_scrc::Way;

/// Appends that octets go to a subsystem at a point.
#[tactic(auto, unfolding(crate::specs::Served::ended_words))]
pub fn put_ended(text: &mut Text, pc: PointCode, ssn: u8, octets: &[u8]) -> Result<(), OutOfMemory>
    ensures { OnOk result (text.new ≡ text.old ++ ended_words pc ssn octets.now) }
{
    text.put(b" ended ")?;
    put_destination(text, pc, ssn)?;
    text.put(b" ")?;
    text.put_octets(octets)
}

// How a service message that goes by title ends. It is connectionless, and it reads.
#[tactic(auto, unfolding(crate::specs::Served::back_end_words))]
fn put_back_end(text: &mut Text, end: &End) -> Result<(), OutOfMemory>
    ensures { OnOk result (text.new ≡ text.old ++ back_end_words end.now) }
{
    match end {
        End::Ended { pc, ssn, octets } => put_ended(text, *pc, *ssn, octets.as_slice()),
        End::Local { ssn, .. } => text.put_numbered(b" local ", u32::from(*ssn)),
        End::Returned { cause, .. } => text.put_numbered(b" lost ", u32::from(*cause)),
        End::Management(_) => text.put(b" management"),
        End::Cut => text.put(b" cut"),
        End::Connection(_) => Ok(()),
        End::Undecodable(_) => Ok(()),
    }
}

fn put_back_end_if_any(text: &mut Text, end: &Option<End>) -> Result<(), OutOfMemory>
    ensures { OnOk result (text.new ≡ text.old ++ option_map_or back_end_words end.now []) }
{
    match end {
        Some(end) => put_back_end(text, end),
        None => Ok(()),
    }
}

// The destination of a service message.
#[tactic(auto, unfolding(crate::specs::Served::way_words))]
fn put_way(text: &mut Text, plan: &Plan, back: &Back) -> Result<(), OutOfMemory>
    ensures { OnOk result (text.new ≡ text.old ++ way_words plan.now back.now.way back.now.path back.now.end) }
{
    match &back.way {
        Way::Direct(pc) => {
            text.put(b" sent ")?;
            put_point_code(text, *pc)
        }
        Way::Shut(mark) => {
            text.put(b" closed ")?;
            put_mark(text, mark)
        }
        Way::ByTitle => {
            text.put(b" via ")?;
            put_path(text, plan, back.path.as_slice())?;
            put_back_end_if_any(text, &back.end)
        }
    }
}

/// Appends the service message (Q.714 section 4.2) and its way, or that there is none.
#[tactic(auto, unfolding(crate::specs::Served::back_words))]
pub fn put_back(text: &mut Text, plan: &Plan, back: &Option<Boxed<Back>>) -> Result<(), OutOfMemory>
    ensures { OnOk result (text.new ≡ text.old ++ back_words plan.now back.now) }
{
    match back {
        Some(back) => {
            let back = back.get();
            text.put(b" service ")?;
            text.put_octets(back.octets.as_slice())?;
            put_way(text, plan, back)
        }
        None => text.put(b" no service"),
    }
}
