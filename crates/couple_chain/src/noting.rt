//! What a relay notes of a message: data that its sections pass on, and the references of a new pair.
ghost use Rattle.std.specs.Prelude.{◌≡◌, ◌<◌, ◌&&◌, ◌++◌, ◌∷◌, [], Some, is_some, filter, flat_map, length, slice_get, OnOk, OnErr};
ghost use Rattle.sccp_message.specs.declared.message.Message.{Message};
ghost use Rattle.sccp_couple.specs.declared.section.Section.{Section};
ghost use Rattle.sccp_couple.specs.declared.way.Way.{Way};
ghost use Rattle.sccp_couple.specs.Invariant.{IsCoupling};
ghost use Rattle.sccp_couple.specs.Sections.{known, section_at};
ghost use Rattle.sccp_couple.specs.Events.{Event, data_of};
ghost use Rattle.sccp_couple.specs.Coupling.{coupled};
ghost use Rattle.sccp_couple.specs.Runs.{is_open, made, new_pair};
ghost use Rattle.couple_chain.specs.Line.{both_of};
ghost use Rattle.couple_chain.specs.Logged.{entry_if, is_of_others, log_after};
ghost use Rattle.couple_chain.specs.Relays.{event_with};

use crate::passed::Passed;
use sccp_base::{Octets, OutOfMemory, PointCode, Reference};
use sccp_couple::Exchange;
use sccp_message::Message;
use std::alloc::Global;

/// Whether data from this point with this destination reference belong to an established section.
fn is_passed(exchange: &Exchange, origin: PointCode, dlr: Reference) -> bool
    ensures { result ≡ (is_some (known exchange.now.sections origin dlr)
        && is_open exchange.now.sections (section_at exchange.now.sections dlr)) }
{
    match exchange.known(origin, dlr) {
        None => false,
        Some(section) => exchange.is_established(&section),
    }
}

/// Notes data that were passed on.
fn log_one(
    alloc: Global,
    passed: &mut Vec<Passed>,
    own: Reference,
    more: bool,
    payload: &Octets,
) -> Result<(), OutOfMemory>
    ensures ok { OnOk result (passed.new.items ≡ passed.old.items ++ record { own = own; more = more; payload = payload.now } ∷ []) }
    ensures err { OnErr result (passed.new.items ≡ passed.old.items) }
{
    let payload = payload.try_clone(alloc)?;
    passed.push(Passed { own, more, payload })?;
    Ok(())
}

/// Notes the data of a message, if a section passes them on.
fn log(
    alloc: Global,
    passed: &mut Vec<Passed>,
    exchange: &Exchange,
    origin: PointCode,
    message: &Message,
) -> Result<(), OutOfMemory>
    ensures ok { OnOk result (passed.new.items ≡ passed.old.items ++ entry_if exchange.now.sections origin (data_of message.now)) }
    ensures err { OnErr result (passed.new.items ≡ passed.old.items) }
{
    match message {
        Message::Dt1 { dlr, more, payload } => {
            if is_passed(exchange, origin, *dlr) {
                log_one(alloc, passed, *dlr, *more, payload)
            } else {
                Ok(())
            }
        }
        _ => Ok(()),
    }
}

/// Removes what earlier sections with these references passed on, since a new pair has passed nothing.
fn forget(passed: &mut Vec<Passed>, near: Reference, far: Reference)
    ensures { passed.new.items ≡ filter (is_of_others (new_pair near far)) passed.old.items }
{
    passed.retain(|e| !(e.own == near) && !(e.own == far));
}

/// Notes two references that were given, or reports lack of memory and notes none.
fn give(given: &mut Vec<Reference>, near: Reference, far: Reference) -> Result<(), OutOfMemory>
    ensures ok { OnOk result (given.new.items ≡ given.old.items ++ near ∷ far ∷ []) }
    ensures err { OnErr result (given.new.items ≡ given.old.items) }
{
    given.push(near)?;
    match given.push(far) {
        Ok(()) => Ok(()),
        Err(_) => {
            given.pop();
            Err(OutOfMemory)
        }
    }
}

/// The number of sections.
fn count_of(exchange: &Exchange) -> usize
    ensures value { result ≡ length exchange.now.sections }
    ensures kept { IsCoupling exchange.now.sections }
{
    exchange.sections().as_slice().len()
}

/// The own reference of the section at a place.
fn own_at(exchange: &Exchange, place: usize) -> Reference
    requires { place < length exchange.now.sections }
    ensures { (s : Section) → slice_get exchange.now.sections place ≡ Some s → result ≡ s.own }
{
    exchange.sections().as_slice()[place].own
}

/// Notes what a message did that led from the one coupling to the other. If there are more sections than before, the last two
/// are a new pair.
pub(crate) fn note(
    alloc: Global,
    passed: &mut Vec<Passed>,
    given: &mut Vec<Reference>,
    before: &Exchange,
    after: &Exchange,
    origin: PointCode,
    message: &Message,
) -> Result<(), OutOfMemory>
    ensures passed { OnOk result ((way : Way) → after.now.sections
        ≡ (coupled before.now.sections (event_with origin message.now way)).sections
        → passed.new.items ≡ log_after before.now.sections (event_with origin message.now way) passed.old.items) }
    ensures given { OnOk result ((way : Way) → after.now.sections
        ≡ (coupled before.now.sections (event_with origin message.now way)).sections
        → given.new.items ≡ given.old.items ++ flat_map both_of (made before.now.sections (event_with origin message.now way))) }
    ensures err_passed { OnErr result (passed.new.items ≡ passed.old.items) }
    ensures err_given { OnErr result (given.new.items ≡ given.old.items) }
{
    let count = count_of(before);
    if count + 1 < count_of(after) {
        let near = own_at(after, count);
        let far = own_at(after, count + 1);
        give(given, near, far)?;
        forget(passed, near, far);
    } else {
        log(alloc, passed, before, origin, message)?;
    }
    Ok(())
}
