//! The covers, as a plan text writes them.
ghost use Rattle.std.specs.Prelude.{◌≡◌, ◌≤◌, IfOk, IfSome, All, map, length};
ghost use Rattle.toml.specs.View.{view};
ghost use Rattle.sccp_base.specs.Answers.{Answers};
ghost use Rattle.plan_model.specs.Faults.{HasFewDigits};
ghost use Rattle.plan_text.specs.EachOk.{each_ok};
ghost use Rattle.plan_text.specs.Faults.{is_memory};
ghost use Rattle.plan_text.specs.Covers.{node_place, number_at, allowed_at, cover_of, covers_of};

use crate::document::{elements_at, integer_if_there, text_at, text_of};
use crate::names::Names;
use crate::put::put;
use crate::words::{digits_up_to, place_of, within};
use plan_model::{Cover, Key, Place, PlanFault};
use sccp_base::{List, Name, PointCode, Selector};
use std::alloc::Global;
use toml::Value;

/// The place of the first node of a name, or the number of nodes if none has it.
#[tactic(auto, unfolding(crate::specs::Covers::node_place))]
fn node_place(names: &Names, name: &[u8]) -> u8
    requires { length names.now ≤ 255 }
    ensures { result ≡ node_place (map view names.now) name.now }
{
    names.place(name).unwrap_or(names.count()) as u8
}

/// The number under a key, from 0 to `most`.
#[tactic(auto, unfolding(crate::specs::Covers::number_at))]
fn number_at(most: u8, key: &str, table: &Value) -> Option<u8>
    ensures value { result ≡ number_at most key.now (view table.now) }
    ensures most { IfSome result (λ number. number ≤ most) }
{
    match integer_if_there(table, key) {
        Some(number) => within(0, most, number),
        None => None,
    }
}

/// The places that the cover at place i allows, or its fault if one of them cannot be read.
fn allowed_of(alloc: Global, i: usize, values: &[Value]) -> Result<List<(PointCode, u8)>, PlanFault>
    ensures { Answers is_memory (λ read. read) result (each_ok (allowed_at i) 0 (map view values.now)) }
{
    let mut read = List::new(alloc);
    for value in values {
        let Some(next) = place_of(text_of(value).as_bytes()) else {
            return Err(PlanFault::BadValue(Place::Cover(i, Key::Allowed)));
        };
        put(&mut read, next)?;
    }
    Ok(read)
}

/// The cover at place i, or the first key whose value cannot be read.
#[tactic(auto, unfolding(crate::specs::Covers::cover_of))]
fn cover_of(alloc: Global, names: &Names, i: usize, cover: &Value) -> Result<Cover, PlanFault>
    requires { length names.now ≤ 255 }
    ensures value { Answers is_memory (λ cover. cover) result (cover_of (map view names.now) i (view cover.now)) }
    ensures few { IfOk result HasFewDigits }
{
    let Some(node) = Name::parse(text_at(cover, "node").as_bytes()) else {
        return Err(PlanFault::BadValue(Place::Cover(i, Key::Node)));
    };
    let Some(selector) = Selector::parse(text_at(cover, "selector").as_bytes()) else {
        return Err(PlanFault::BadValue(Place::Cover(i, Key::Selector)));
    };
    let Some(ssn) = number_at(255, "ssn", cover) else {
        return Err(PlanFault::BadValue(Place::Cover(i, Key::Ssn)));
    };
    let Some(prefix) = digits_up_to(32, text_at(cover, "prefix").as_bytes()) else {
        return Err(PlanFault::BadValue(Place::Cover(i, Key::Prefix)));
    };
    let Some(least) = number_at(32, "least", cover) else {
        return Err(PlanFault::BadValue(Place::Cover(i, Key::Least)));
    };
    let Some(most) = number_at(32, "most", cover) else {
        return Err(PlanFault::BadValue(Place::Cover(i, Key::Most)));
    };
    match allowed_of(alloc, i, elements_at(cover, "allowed")) {
        Ok(allowed) => Ok(Cover {
            node: node_place(names, node.as_slice()),
            selector,
            ssn,
            prefix,
            least,
            most,
            allowed,
        }),
        Err(fault) => Err(fault),
    }
}

/// All covers in their order, or the first value of them that cannot be read.
pub(crate) fn covers_of(
    alloc: Global,
    names: &Names,
    covers: &[Value],
) -> Result<List<Cover>, PlanFault>
    requires { length names.now ≤ 255 }
    ensures value { Answers is_memory (λ read. read) result (covers_of (map view names.now) (map view covers.now)) }
    ensures few { IfOk result (All HasFewDigits) }
{
    let mut read = List::new(alloc);
    for (i, cover) in covers.iter().enumerate() {
        let next = cover_of(alloc, names, i, cover)?;
        put(&mut read, next)?;
    }
    Ok(read)
}
