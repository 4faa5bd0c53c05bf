//! The messages that management sends.
ghost use Rattle.std.specs.Prelude.{◌≡◌, [], ◌∷◌, ◌++◌, if◌then◌else◌, not, OnOk, OnErr};
ghost use Rattle.sccp_base.specs.declared.mark.Mark.TheVariants as marks;
ghost use Rattle.sccp_base.specs.Marks.{holds};
ghost use Rattle.sccp_manage.specs.Statuses.{sent_to};
ghost use Rattle.sccp_manage.specs.Managing.{sent_if_reached, test_of};

use crate::status::{StatusKind, StatusMessage, octets_of};
use sccp_base::{List, Mark, Marking, Octets, OutOfMemory, PointCode};
use std::alloc::Global;

/// A message that is to be sent, and the point that it goes to.
#[derive(Drop)]
pub struct Sent {
    pub to: PointCode,
    pub octets: Octets,
}

/// Appends a status message to a point to the messages that are to be sent.
pub fn push(
    alloc: Global,
    sent: &mut List<Sent>,
    to: PointCode,
    status: &StatusMessage,
) -> Result<(), OutOfMemory>
    ensures { OnOk result (sent.new ≡ sent.old ++ sent_to to status.now ∷ []) }
{
    let octets = octets_of(alloc, status)?;
    sent.push(Sent { to, octets })?;
    Ok(())
}

/// The same, if the point is not prohibited.
pub fn push_if_reached(
    alloc: Global,
    sent: &mut List<Sent>,
    marking: &Marking,
    to: PointCode,
    status: &StatusMessage,
) -> Result<(), OutOfMemory>
    ensures { OnOk result (sent.new ≡ sent.old ++ sent_if_reached marking.now to status.now) }
{
    if marking.holds(Mark::PointCode(to)) {
        Ok(())
    } else {
        push(alloc, sent, to, status)
    }
}

/// Appends the test of a mark: of an SCCP or a subsystem of another point, if that point is not prohibited.
pub fn push_test(
    alloc: Global,
    sent: &mut List<Sent>,
    marking: &Marking,
    own: PointCode,
    mark: &Mark,
) -> Result<(), OutOfMemory>
    ensures { OnOk result (sent.new ≡ sent.old ++ test_of own marking.now mark.now) }
{
    let (pc, ssn) = match mark {
        Mark::PointCode(_) => return Ok(()),
        Mark::Sccp(pc) => (*pc, 1),
        Mark::Subsystem(pc, _) if *pc == own => return Ok(()),
        Mark::Subsystem(pc, ssn) => (*pc, *ssn),
    };
    let status = StatusMessage {
        kind: StatusKind::Test,
        ssn,
        pc,
    };
    push_if_reached(alloc, sent, marking, pc, &status)
}
