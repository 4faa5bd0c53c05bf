//! The text of the answer on a changeover between two plans.
ghost use Rattle.std.specs.Prelude.{◌≡◌, ◌≤◌, ◌++◌, length, IfSome, OnOk, IfOk};
ghost use Rattle.plan_model.specs.Covered.{Covered};
ghost use Rattle.plan_model.specs.Network.{IsPlan};
ghost use Rattle.plan_model.specs.SameNodes.{SameNodes};
ghost use Rattle.plan_change.specs.Changes.{IsLawfulChange};
ghost use Rattle.plan_change.specs.Mixture.{mixed, tagged};
ghost use Rattle.sccp_report.specs.Changes.{which_words, mixed_hop_line, mixed_hops_text, kept_line, broken_words, covers_words};
ghost use Rattle.sccp_report.specs.Changes.{broken_line, wide_change_line, longest_hops_text, change_text};

use crate::hop::put_hop;
use crate::limits::put_too_wide;
use crate::text::Text;
use crate::verdict::{put_accepted, put_kind};
use plan_change::{Change, MixedHop, Turn, Which, mixed_hops};
use plan_model::{Kind, Limits, Plan, Spot};
use sccp_base::{Marking, Octets, OutOfMemory};
use std::alloc::Global;

/// Appends which of two plans a relay holds.
#[tactic(auto, unfolding(crate::specs::Changes::which_words))]
fn put_which(text: &mut Text, which: Which) -> Result<(), OutOfMemory>
    ensures { OnOk result (text.new ≡ text.old ++ which_words which) }
{
    match which {
        Which::Old => text.put(b"old "),
        Which::New => text.put(b"new "),
    }
}

/// Appends a hop under a marking.
#[tactic(auto, unfolding(crate::specs::Changes::mixed_hop_line))]
fn put_mixed_hop(
    text: &mut Text,
    plan: &Plan,
    hop: &MixedHop,
    marking: &Marking,
) -> Result<(), OutOfMemory>
    ensures { OnOk result (text.new ≡ text.old ++ mixed_hop_line plan.now hop.now marking.now) }
{
    put_which(text, hop.which)?;
    put_hop(text, plan, &hop.hop, marking)
}

/// Appends a line for each hop of a mixed route, under the marking of its turn. The relays have the names that this plan gives them.
pub fn put_mixed_hops(
    text: &mut Text,
    plan: &Plan,
    hops: &[MixedHop],
    turns: &[Turn],
) -> Result<(), OutOfMemory>
    requires { length hops.now ≤ length turns.now }
    ensures { OnOk result (text.new ≡ text.old ++ mixed_hops_text plan.now hops.now turns.now) }
{
    for (i, hop) in hops.iter().enumerate() {
        put_mixed_hop(text, plan, hop, &turns[i].marking)?;
    }
    Ok(())
}

/// Appends the line of two plans that may be mixed, with the bound in hops.
#[tactic(auto, unfolding(crate::specs::Changes::kept_line))]
fn put_kept(text: &mut Text, bound: u8) -> Result<(), OutOfMemory>
    ensures { OnOk result (text.new ≡ text.old ++ kept_line bound) }
{
    text.put(b"change ")?;
    put_accepted(text, bound)
}

/// Appends that two plans may not be mixed.
#[tactic(auto, unfolding(crate::specs::Changes::broken_words))]
fn put_broken_words(text: &mut Text) -> Result<(), OutOfMemory>
    ensures { OnOk result (text.new ≡ text.old ++ broken_words) }
{
    text.put(b"change refused ")
}

/// Appends the places of two covers, one of each plan, which end the line.
#[tactic(auto, unfolding(crate::specs::Changes::covers_words))]
pub fn put_both_covers(text: &mut Text, old_cover: u32, new_cover: u32) -> Result<(), OutOfMemory>
    ensures { OnOk result (text.new ≡ text.old ++ covers_words old_cover new_cover) }
{
    text.put_numbered(b" covers ", old_cover)?;
    text.put_numbered(b" ", new_cover)?;
    text.put(b"\n")
}

/// Appends the line of two plans that may not be mixed, for a title that these two covers have.
#[tactic(auto, unfolding(crate::specs::Changes::broken_line))]
fn put_broken(
    text: &mut Text,
    old_cover: u32,
    new_cover: u32,
    kind: Kind,
) -> Result<(), OutOfMemory>
    ensures { OnOk result (text.new ≡ text.old ++ broken_line old_cover new_cover kind) }
{
    put_broken_words(text)?;
    put_kind(text, kind)?;
    put_both_covers(text, old_cover, new_cover)
}

/// Appends the line of two plans that reach too many classes together.
#[tactic(auto, unfolding(crate::specs::Changes::wide_change_line))]
fn put_wide(text: &mut Text, limits: Limits) -> Result<(), OutOfMemory>
    ensures { OnOk result (text.new ≡ text.old ++ wide_change_line limits) }
{
    text.put(b"change ")?;
    put_too_wide(text, limits)
}

/// Appends the mixed route of a title that both plans cover.
fn put_mixed_route(
    alloc: Global,
    text: &mut Text,
    old: &Plan,
    new: &Plan,
    spot: &Spot,
    turns: &[Turn],
) -> Result<(), OutOfMemory>
    requires same { SameNodes old.now new.now }
    requires old { IsPlan old.now }
    requires new { IsPlan new.now }
    requires covered { Covered old.now spot.now }
    ensures { OnOk result (text.new ≡ text.old ++ mixed_hops_text old.now
        (tagged (mixed old.now new.now spot.now turns.now) turns.now) turns.now) }
{
    let hops = mixed_hops(alloc, old, new, spot, turns)?;
    put_mixed_hops(text, old, hops.as_slice(), turns)
}

/// Appends the longest mixed route, if there is one.
fn put_longest(
    alloc: Global,
    text: &mut Text,
    old: &Plan,
    new: &Plan,
    spot: &Option<Spot>,
    turns: &[Turn],
) -> Result<(), OutOfMemory>
    requires same { SameNodes old.now new.now }
    requires old { IsPlan old.now }
    requires new { IsPlan new.now }
    requires covered { IfSome spot.now (Covered old.now) }
    ensures { OnOk result (text.new ≡ text.old ++ longest_hops_text old.now new.now spot.now turns.now) }
{
    match spot {
        Some(spot) => put_mixed_route(alloc, text, old, new, spot, turns),
        None => Ok(()),
    }
}

/// The answer on two plans of the same nodes that are to be exchanged: whether they may be mixed, and the mixed route
/// that shows it. Each hop follows `old ` or `new ` for the plan that its relay held.
pub fn change_text(
    alloc: Global,
    old: &Plan,
    new: &Plan,
    change: &Change,
) -> Result<Octets, OutOfMemory>
    requires same { SameNodes old.now new.now }
    requires lawful { IsLawfulChange old.now new.now change.now }
    ensures { IfOk result (λ text. text ≡ change_text old.now new.now change.now) }
{
    prove!(old.nodes().as_slice().len() == new.nodes().as_slice().len());
    let mut text = Text::new(alloc);
    match change {
        Change::Kept { bound, spot, turns } => {
            put_kept(&mut text, *bound)?;
            put_longest(alloc, &mut text, old, new, spot, turns.as_slice())?;
        }
        Change::Broken {
            old_cover,
            new_cover,
            turns,
            hops,
            kind,
            ..
        } => {
            put_broken(&mut text, *old_cover, *new_cover, *kind)?;
            put_mixed_hops(&mut text, old, hops.as_slice(), turns.as_slice())?;
        }
        Change::TooWide => put_wide(&mut text, old.limits())?,
    }
    Ok(text.into_octets())
}
