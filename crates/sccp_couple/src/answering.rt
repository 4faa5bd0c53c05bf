//! What a node does with each type of message, except CR and RLSD.
ghost use Rattle.std.specs.Prelude.{◌≡◌, ◌≤◌, ◌++◌, map, length, true, Some, IfOk, OnOk, OnErr};
ghost use Rattle.sccp_layout.specs.Joining.{are_short};
ghost use Rattle.sccp_message.specs.declared.message.Message.{Message};
ghost use Rattle.sccp_message.specs.Written.{Writable};
ghost use Rattle.sccp_couple.specs.declared.section.Section.{Section};
ghost use Rattle.sccp_couple.specs.Sections.{known, section_at};
ghost use Rattle.sccp_couple.specs.Coupling.{on_confirm, on_refusal, on_data, on_release, on_complete, release, to_one};
ghost use Rattle.sccp_couple.specs.Sending.{written_sent};

use crate::connection_confirm::ConnectionConfirm;
use crate::section::Section;
use crate::sections::Sections;
use crate::sending::{confirm_toward, data_toward, error, refuse_toward, to_one, to_two};
use sccp_base::{List, Octets, OutOfMemory, PointCode, Reference};
use sccp_layout::Param;
use sccp_manage::Sent;
use sccp_message::Message;
use std::alloc::Global;

/// A confirmation that belongs to a section.
fn confirm_known(
    alloc: Global,
    sections: &mut Sections,
    section: &Section,
    confirm: &ConnectionConfirm,
) -> Result<List<Sent>, OutOfMemory>
    requires { are_short confirm.now.params.now ≡ true }
    ensures state { OnOk result
        (sections.new ≡ (on_confirm sections.old confirm.now.origin confirm.now.slr confirm.now.class confirm.now.params.now
        (Some section.now)).sections) }
    ensures sent { IfOk result (λ sent. sent ≡ map written_sent
        (on_confirm sections.old confirm.now.origin confirm.now.slr confirm.now.class confirm.now.params.now (Some section.now)).sent) }
    ensures err { OnErr result (sections.new ≡ sections.old) }
{
    if !section.near && section.remote.is_none() {
        let near = sections.other_of(section);
        let sent = confirm_toward(alloc, near, confirm.class, confirm.params)?;
        sections.confirm(section.own, confirm.slr);
        return Ok(sent);
    }
    if section.remote == Some(confirm.slr) {
        return Ok(List::new(alloc));
    }
    error(alloc, confirm.origin, confirm.slr, 1)
}

/// Connection confirm (CC).
pub(crate) fn on_confirm(
    alloc: Global,
    sections: &mut Sections,
    confirm: &ConnectionConfirm,
) -> Result<List<Sent>, OutOfMemory>
    requires { are_short confirm.now.params.now ≡ true }
    ensures state { OnOk result
        (sections.new ≡ (on_confirm sections.old confirm.now.origin confirm.now.slr confirm.now.class confirm.now.params.now
        (known sections.old confirm.now.origin confirm.now.dlr)).sections) }
    ensures sent { IfOk result (λ sent. sent ≡ map written_sent
        (on_confirm sections.old confirm.now.origin confirm.now.slr confirm.now.class confirm.now.params.now
        (known sections.old confirm.now.origin confirm.now.dlr)).sent) }
    ensures err { OnErr result (sections.new ≡ sections.old) }
{
    match sections.known(confirm.origin, confirm.dlr) {
        None => error(alloc, confirm.origin, confirm.slr, 0),
        Some(section) => confirm_known(alloc, sections, &section, confirm),
    }
}

/// A refusal that belongs to a section.
fn refuse_known(
    alloc: Global,
    sections: &mut Sections,
    section: &Section,
    cause: u8,
    params: &List<Param>,
) -> Result<List<Sent>, OutOfMemory>
    requires { are_short params.now ≡ true }
    ensures state { OnOk result (sections.new ≡ (on_refusal sections.old cause params.now (Some section.now)).sections) }
    ensures sent { IfOk result (λ sent. sent ≡ map written_sent (on_refusal sections.old cause params.now (Some section.now)).sent) }
    ensures err { OnErr result (sections.new ≡ sections.old) }
{
    if section.near || section.remote.is_some() {
        return Ok(List::new(alloc));
    }
    let near = sections.other_of(section);
    let sent = refuse_toward(alloc, near, cause, params)?;
    sections.end_both(section);
    Ok(sent)
}

/// Connection refused (CREF).
pub(crate) fn on_refusal(
    alloc: Global,
    sections: &mut Sections,
    origin: PointCode,
    dlr: Reference,
    cause: u8,
    params: &List<Param>,
) -> Result<List<Sent>, OutOfMemory>
    requires { are_short params.now ≡ true }
    ensures state { OnOk result (sections.new ≡ (on_refusal sections.old cause params.now (known sections.old origin dlr)).sections) }
    ensures sent { IfOk result (λ sent. sent ≡ map written_sent
        (on_refusal sections.old cause params.now (known sections.old origin dlr)).sent) }
    ensures err { OnErr result (sections.new ≡ sections.old) }
{
    match sections.known(origin, dlr) {
        None => Ok(List::new(alloc)),
        Some(section) => refuse_known(alloc, sections, &section, cause, params),
    }
}

/// Data that belong to a section.
fn data_known(
    alloc: Global,
    sections: &Sections,
    section: &Section,
    more: bool,
    payload: &Octets,
) -> Result<List<Sent>, OutOfMemory>
    requires { length payload.now ≤ 255 }
    ensures { IfOk result (λ sent. sent ≡ map written_sent (on_data sections.now more payload.now (Some section.now)).sent) }
{
    if !sections.is_established(section) {
        return Ok(List::new(alloc));
    }
    let other = sections.other_of(section);
    data_toward(alloc, other, more, payload)
}

/// Data form 1 (DT1), which changes no section.
pub(crate) fn on_data(
    alloc: Global,
    sections: &Sections,
    origin: PointCode,
    dlr: Reference,
    more: bool,
    payload: &Octets,
) -> Result<List<Sent>, OutOfMemory>
    requires { length payload.now ≤ 255 }
    ensures { IfOk result (λ sent. sent ≡ map written_sent (on_data sections.now more payload.now (known sections.now origin dlr)).sent) }
{
    match sections.known(origin, dlr) {
        None => Ok(List::new(alloc)),
        Some(section) => data_known(alloc, sections, &section, more, payload),
    }
}

/// Release complete (RLC), which is never answered.
pub(crate) fn on_complete(
    sections: &mut Sections,
    origin: PointCode,
    dlr: Reference,
    slr: Reference,
)
    ensures { sections.new ≡ (on_complete sections.old slr (known sections.old origin dlr)).sections }
{
    let Some(section) = sections.known(origin, dlr) else {
        return;
    };
    if section.other.is_none() && section.remote == Some(slr) {
        sections.end(section.own);
    }
}
