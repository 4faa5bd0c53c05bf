//! What a node does with a released message (RLSD).
ghost use Rattle.std.specs.Prelude.{◌≡◌, ◌++◌, map, true, Some, IfOk, OnOk, OnErr};
ghost use Rattle.sccp_layout.specs.Joining.{are_short};
ghost use Rattle.sccp_message.specs.declared.message.Message.{Message};
ghost use Rattle.sccp_couple.specs.declared.section.Section.{Section};
ghost use Rattle.sccp_couple.specs.Sections.{known};
ghost use Rattle.sccp_couple.specs.Coupling.{on_release, release, to_one};
ghost use Rattle.sccp_couple.specs.Sending.{written_sent};

use crate::released::Released;
use crate::section::Section;
use crate::sections::Sections;
use crate::sending::{error, to_one, to_two};
use sccp_base::{List, OutOfMemory, Reference};
use sccp_layout::copied_params;
use sccp_manage::Sent;
use sccp_message::Message;
use std::alloc::Global;

/// Completes the release toward its origin.
fn complete(alloc: Global, released: &Released) -> Result<List<Sent>, OutOfMemory>
    ensures { IfOk result (λ sent. sent ≡ map written_sent (to_one released.now.origin (Message.Rlc released.now.slr released.now.dlr))) }
{
    let completed = Message::Rlc {
        dlr: released.slr,
        slr: released.dlr,
    };
    to_one(alloc, released.origin, completed)
}

/// Completes the release toward its origin, and sends a release to the other point.
#[tactic(auto, using(crate::proofs::Fits::release_fits))]
fn complete_and_release(
    alloc: Global,
    released: &Released,
    other: &Section,
    remote: Reference,
) -> Result<List<Sent>, OutOfMemory>
    requires { are_short released.now.params.now ≡ true }
    ensures { IfOk result (λ sent. sent ≡ map written_sent (to_one released.now.origin (Message.Rlc released.now.slr released.now.dlr)
        ++ to_one other.now.point (Message.Rlsd remote other.now.own released.now.cause released.now.params.now))) }
{
    let params = copied_params(alloc, released.params)?;
    let completed = Message::Rlc {
        dlr: released.slr,
        slr: released.dlr,
    };
    let onward = Message::Rlsd {
        dlr: remote,
        slr: other.own,
        cause: released.cause,
        params,
    };
    to_two(alloc, released.origin, completed, other.point, onward)
}

/// Ends the section, and releases its other one. If the other one has no remote, it ends as well.
fn release_both(
    alloc: Global,
    sections: &mut Sections,
    section: &Section,
    other: Reference,
    released: &Released,
) -> Result<List<Sent>, OutOfMemory>
    requires short { are_short released.now.params.now ≡ true }
    requires other { section.now.other ≡ Some other }
    ensures state { OnOk result
        (sections.new ≡ (release sections.old section.now
        (to_one released.now.origin (Message.Rlc released.now.slr released.now.dlr)) released.now.cause released.now.params.now
        (Some other)).sections) }
    ensures sent { IfOk result (λ sent. sent ≡ map written_sent
        (release sections.old section.now (to_one released.now.origin
        (Message.Rlc released.now.slr released.now.dlr)) released.now.cause released.now.params.now (Some other)).sent) }
    ensures err { OnErr result (sections.new ≡ sections.old) }
{
    match sections.at(other) {
        None => {
            let sent = complete(alloc, released)?;
            sections.end_both(section);
            Ok(sent)
        }
        Some(far) => match far.remote {
            None => {
                let sent = complete(alloc, released)?;
                sections.end_both(section);
                Ok(sent)
            }
            Some(remote) => {
                let sent = complete_and_release(alloc, released, &far, remote)?;
                sections.end(section.own);
                sections.release(other);
                Ok(sent)
            }
        },
    }
}

/// A release that belongs to a section.
fn release_known(
    alloc: Global,
    sections: &mut Sections,
    section: &Section,
    released: &Released,
) -> Result<List<Sent>, OutOfMemory>
    requires { are_short released.now.params.now ≡ true }
    ensures state { OnOk result
        (sections.new ≡ (on_release sections.old released.now.origin released.now.dlr released.now.slr released.now.cause
        released.now.params.now (Some section.now)).sections) }
    ensures sent { IfOk result (λ sent. sent ≡ map written_sent
        (on_release sections.old released.now.origin released.now.dlr released.now.slr released.now.cause released.now.params.now
        (Some section.now)).sent) }
    ensures err { OnErr result (sections.new ≡ sections.old) }
{
    if section.remote != Some(released.slr) {
        return error(alloc, released.origin, released.slr, 1);
    }
    match section.other {
        None => {
            let sent = complete(alloc, released)?;
            sections.end(section.own);
            Ok(sent)
        }
        Some(other) => release_both(alloc, sections, section, other, released),
    }
}

/// Released (RLSD).
pub(crate) fn on_release(
    alloc: Global,
    sections: &mut Sections,
    released: &Released,
) -> Result<List<Sent>, OutOfMemory>
    requires { are_short released.now.params.now ≡ true }
    ensures state { OnOk result
        (sections.new ≡ (on_release sections.old released.now.origin released.now.dlr released.now.slr released.now.cause
        released.now.params.now (known sections.old released.now.origin released.now.dlr)).sections) }
    ensures sent { IfOk result (λ sent. sent ≡ map written_sent
        (on_release sections.old released.now.origin released.now.dlr released.now.slr released.now.cause released.now.params.now
        (known sections.old released.now.origin released.now.dlr)).sent) }
    ensures err { OnErr result (sections.new ≡ sections.old) }
{
    match sections.known(released.origin, released.dlr) {
        None => complete(alloc, released),
        Some(section) => release_known(alloc, sections, &section, released),
    }
}
