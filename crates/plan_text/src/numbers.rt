//! The subsystems of a node, and the concerned points that learn their status: lists without repeats. They may be long, so a
//! repeat is found by a flag for each number.
ghost use Rattle.std.specs.Prelude.{◌≡◌, ◌≢◌, ◌<◌, false, IfOk, IfErr, IfSome, All, AllPairs, map, length};
ghost use Rattle.toml.specs.View.{view};
ghost use Rattle.sccp_base.specs.Answers.{Answers};
ghost use Rattle.plan_model.specs.Network.{IsSubsystem};
ghost use Rattle.plan_model.specs.declared.plan_fault.PlanFault.{PlanFault};
ghost use Rattle.plan_text.specs.EachOk.{each_ok};
ghost use Rattle.plan_text.specs.Faults.{is_memory};
ghost use Rattle.plan_text.specs.Drafts.{repeats, subsystem_of, subsystem_at, point_at, subsystems_of, concerned_of};

use crate::document::text_of;
use crate::put::put;
use crate::words::within;
use plan_model::{Place, PlanFault};
use sccp_base::{List, PointCode};
use std::alloc::Global;
use toml::Value;

/// The number of a subsystem, from 2 to 255.
#[tactic(auto, unfolding(crate::specs::Drafts::subsystem_of))]
fn subsystem_of(value: &Value) -> Option<u8>
    ensures value { result ≡ subsystem_of (view value.now) }
    ensures sound { IfSome result IsSubsystem }
{
    match value.as_integer() {
        Some(number) => within(2, 255, number),
        None => None,
    }
}

/// The numbers of subsystems, as they are written.
fn read_subsystems(alloc: Global, place: Place, values: &[Value]) -> Result<List<u8>, PlanFault>
    ensures value { Answers is_memory (λ read. read) result (each_ok (subsystem_at place) 0 (map view values.now)) }
    ensures sound { IfOk result (All IsSubsystem) }
{
    let mut read = List::new(alloc);
    for value in values {
        let Some(next) = subsystem_of(value) else {
            return Err(PlanFault::BadValue(place));
        };
        put(&mut read, next)?;
    }
    Ok(read)
}

/// The points, as they are written.
fn read_points(alloc: Global, place: Place, values: &[Value]) -> Result<List<PointCode>, PlanFault>
    ensures { Answers is_memory (λ read. read) result (each_ok (point_at place) 0 (map view values.now)) }
{
    let mut read = List::new(alloc);
    for value in values {
        let Some(next) = PointCode::parse(text_of(value).as_bytes()) else {
            return Err(PlanFault::BadValue(place));
        };
        put(&mut read, next)?;
    }
    Ok(read)
}

/// This number of flags, none of them set.
fn marks(alloc: Global, count: usize) -> Result<Vec<bool>, PlanFault>
    ensures count { IfOk result (λ marks. length marks.items ≡ count) }
    ensures fresh { IfOk result (λ marks. All (λ mark. mark ≡ false) marks.items) }
    ensures err { IfErr result (λ fault. fault ≡ PlanFault.OutOfMemory) }
{
    match vec![in alloc; false; count] {
        Ok(marks) => Ok(marks),
        Err(_) => Err(PlanFault::OutOfMemory),
    }
}

/// Whether a subsystem number is that of an earlier one. There is a flag for each number.
#[tactic(auto, unfolding(crate::specs::Drafts::repeats))]
fn repeats(seen: &mut [bool], ssns: &[u8]) -> bool
    requires count { length seen.old ≡ 256 }
    requires fresh { All (λ mark. mark ≡ false) seen.old }
    ensures value { result ≡ repeats ssns.now }
    ensures distinct { result ≡ false → AllPairs (λ a b. a ≢ b) ssns.now }
{
    for (i, ssn) in ssns.iter().enumerate() {
        let place = usize::from(*ssn);
        if seen[place] {
            return true;
        }
        seen[place] = true;
    }
    false
}

/// Whether a point is an earlier one. There is a flag for each point code.
#[tactic(auto, unfolding(crate::specs::Drafts::repeats))]
fn points_repeat(seen: &mut [bool], points: &[PointCode]) -> bool
    requires count { length seen.old ≡ 16384 }
    requires fresh { All (λ mark. mark ≡ false) seen.old }
    ensures value { result ≡ repeats points.now }
    ensures distinct { result ≡ false → AllPairs (λ a b. a ≢ b) points.now }
{
    for (i, point) in points.iter().enumerate() {
        let place = usize::from(point.value());
        if seen[place] {
            return true;
        }
        seen[place] = true;
    }
    false
}

/// The subsystems of a node, or its fault if one is not from 2 to 255 or repeats another.
#[tactic(auto, unfolding(crate::specs::Drafts::subsystems_of))]
pub(crate) fn subsystems_of(
    alloc: Global,
    place: Place,
    values: &[Value],
) -> Result<List<u8>, PlanFault>
    ensures value { Answers is_memory (λ read. read) result (subsystems_of place (map view values.now)) }
    ensures sound { IfOk result (All IsSubsystem) }
    ensures distinct { IfOk result (AllPairs (λ a b. a ≢ b)) }
{
    let read = read_subsystems(alloc, place, values)?;
    let mut seen = marks(alloc, 256)?;
    if repeats(seen.as_mut_slice(), read.as_slice()) {
        return Err(PlanFault::BadValue(place));
    }
    Ok(read)
}

/// The concerned points of a node, or its fault if one cannot be read or repeats another.
#[tactic(auto, unfolding(crate::specs::Drafts::concerned_of))]
pub(crate) fn concerned_of(
    alloc: Global,
    place: Place,
    values: &[Value],
) -> Result<List<PointCode>, PlanFault>
    ensures value { Answers is_memory (λ read. read) result (concerned_of place (map view values.now)) }
    ensures distinct { IfOk result (AllPairs (λ a b. a ≢ b)) }
{
    let read = read_points(alloc, place, values)?;
    let mut seen = marks(alloc, 16384)?;
    if points_repeat(seen.as_mut_slice(), read.as_slice()) {
        return Err(PlanFault::BadValue(place));
    }
    Ok(read)
}
