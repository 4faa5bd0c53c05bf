//! Whether relays have the same rows in two plans.
ghost use Rattle.std.specs.Prelude.{◌≡◌, ◌<◌, ◌+◌, ◌↔◌, [], IsTrue, IfOk, OnOk, length};
ghost use Rattle.plan_rules.specs.declared.target.Target.TheVariants.{Relay as RelayTarget, Final as FinalTarget};
ghost use Rattle.plan_model.specs.SameNodes.{SameNodes};
ghost use Rattle.plan_order.specs.Sets.{Differs};
ghost use Rattle.plan_order.specs.Searching.{IsSplit, AreFirst};

use plan_model::Plan;
use plan_rules::{Row, Target};
use sccp_base::{Digits, List, OutOfMemory, PointCode, Selector};
use std::alloc::Global;

fn are_equal(a: &[u8], b: &[u8]) -> bool
    ensures { IsTrue result ↔ (a.now ≡ b.now) }
{
    a == b
}

/// Whether the target leads to a relay by these.
fn is_relay(
    target: &Target,
    pc: PointCode,
    strip: u8,
    put: &Digits,
    selector: Option<Selector>,
    ssn: Option<u8>,
) -> bool
    ensures { IsTrue result ↔ (target.now ≡ RelayTarget pc strip put.now selector ssn) }
{
    match target {
        Target::Relay {
            pc: own_pc,
            strip: own_strip,
            put: own_put,
            selector: own_selector,
            ssn: own_ssn,
        } => {
            if *own_pc != pc {
                return false;
            }
            if *own_strip != strip {
                return false;
            }
            if *own_selector != selector {
                return false;
            }
            if *own_ssn != ssn {
                return false;
            }
            are_equal(own_put.as_slice(), put.as_slice())
        }
        Target::Final { .. } => false,
    }
}

/// Whether the target leads to a destination by these.
fn is_final(target: &Target, pc: PointCode, ssn: Option<u8>) -> bool
    ensures { IsTrue result ↔ (target.now ≡ FinalTarget pc ssn) }
{
    match target {
        Target::Relay { .. } => false,
        Target::Final {
            pc: own_pc,
            ssn: own_ssn,
        } => {
            if *own_pc != pc {
                return false;
            }
            *own_ssn == ssn
        }
    }
}

fn are_alike(a: &Target, b: &Target) -> bool
    ensures { IsTrue result ↔ (a.now ≡ b.now) }
{
    match b {
        Target::Relay {
            pc,
            strip,
            put,
            selector,
            ssn,
        } => is_relay(a, *pc, *strip, put, *selector, *ssn),
        Target::Final { pc, ssn } => is_final(a, *pc, *ssn),
    }
}

/// Whether two lists of targets are the same.
fn have_same_targets(a: &[Target], b: &[Target]) -> bool
    ensures { IsTrue result ↔ (a.now ≡ b.now) }
{
    if a.len() != b.len() {
        return false;
    }
    for (i, target) in a.iter().enumerate() {
        if !are_alike(target, &b[i]) {
            return false;
        }
    }
    true
}

fn are_same_rows(a: &Row, b: &Row) -> bool
    ensures { IsTrue result ↔ (a.now ≡ b.now) }
{
    if a.selector() != b.selector() {
        return false;
    }
    if a.ssn() != b.ssn() {
        return false;
    }
    if !are_equal(a.prefix().as_slice(), b.prefix().as_slice()) {
        return false;
    }
    have_same_targets(a.targets(), b.targets())
}

/// Whether two lists of rows are the same.
fn have_same_rows(a: &[Row], b: &[Row]) -> bool
    ensures { IsTrue result ↔ (a.now ≡ b.now) }
{
    if a.len() != b.len() {
        return false;
    }
    for (i, row) in a.iter().enumerate() {
        if !are_same_rows(row, &b[i]) {
            return false;
        }
    }
    true
}

/// Whether the rows of the relay at this place are not the same in both plans.
fn differs(old: &Plan, new: &Plan, node: u8) -> bool
    requires old { node < length old.now.nodes }
    requires new { node < length new.now.nodes }
    ensures { IsTrue result ↔ Differs old.now new.now node }
{
    let a = &old.nodes().as_slice()[usize::from(node)];
    let b = &new.nodes().as_slice()[usize::from(node)];
    !have_same_rows(a.table.rows(), b.table.rows())
}

/// How many relays a plan has.
pub(crate) fn count_of(plan: &Plan) -> u8
    ensures { result ≡ length plan.now.nodes }
{
    plan.nodes().as_slice().len() as u8
}

/// Puts the relay at this place, if its rows differ.
fn note(old: &Plan, new: &Plan, node: u8, differ: &mut List<u8>) -> Result<(), OutOfMemory>
    requires old { node < length old.now.nodes }
    requires new { node < length new.now.nodes }
    requires first { AreFirst old.now new.now node differ.old }
    ensures { OnOk result (AreFirst old.now new.now (node + 1) differ.new) }
{
    if !differs(old, new, node) {
        return Ok(());
    }
    differ.push(node)
}

/// The relays whose rows differ, in the order of the plan.
pub(crate) fn differing(alloc: Global, old: &Plan, new: &Plan) -> Result<List<u8>, OutOfMemory>
    requires same { SameNodes old.now new.now }
    ensures { IfOk result (IsSplit old.now new.now []) }
{
    let mut differ = List::new(alloc);
    for node in 0..count_of(old) {
        note(old, new, node, &mut differ)?;
    }
    Ok(differ)
}
