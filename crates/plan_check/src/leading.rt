//! What the targets of a decided class make of it.
ghost use Rattle.std.specs.Prelude.{◌≡◌, ◌<◌, length, IsTrue, ◌↔◌, IfOk, Some};
ghost use Rattle.std.specs.List.{All, Contains};
ghost use Rattle.plan_classes.specs.declared.leads.Image.{Image};
ghost use Rattle.plan_classes.specs.Classes.{Decided, class_row};
ghost use Rattle.plan_check.specs.Ranking.{rank_in};
ghost use Rattle.plan_check.specs.Ranked.{Allows};
ghost use Rattle.plan_check.specs.Checks.{LeadsTo, MayLead, NextHasRank, NextIsLower};

use crate::ranks::Ranks;
use plan_classes::{Class, Image, image_by, reaches_by};
use plan_model::Plan;
use plan_rules::Row;
use sccp_base::{List, OutOfMemory, PointCode};
use std::alloc::Global;

/// Whether a cover allows a place.
pub fn allows(plan: &Plan, cover: u32, pc: PointCode, ssn: u8) -> bool
    requires { cover < length plan.now.covers }
    ensures { IsTrue result ↔ Allows plan.now cover pc ssn }
{
    plan.covers().as_slice()[cover as usize].allows(pc, ssn)
}

/// What the targets that can be the first open one make of a class.
pub(crate) fn images(
    alloc: Global,
    plan: &Plan,
    class: &Class,
    row: &Row,
) -> Result<List<Image>, OutOfMemory>
    requires node { class.now.node < length plan.now.nodes }
    requires decided { Decided plan.now class.now }
    requires row { class_row plan.now class.now ≡ Some row.now }
    ensures each { IfOk result (All (LeadsTo plan.now class.now)) }
    ensures every { IfOk result (λ images. (image : Image) → LeadsTo plan.now class.now image → Contains images image) }
{
    let mut images = List::new(alloc);
    for place in 0..row.target_count() {
        if reaches_by(plan, class, row, place) {
            images.push(image_by(plan, class, row, place))?;
        }
    }
    Ok(images)
}

/// Whether the image is another class, or an end that the cover allows.
fn may_lead(plan: &Plan, cover: u32, image: &Image) -> bool
    requires { cover < length plan.now.covers }
    ensures { IsTrue result ↔ MayLead plan.now cover image.now }
{
    match image {
        Image::Next(_) => true,
        Image::Ends { pc, ssn } => allows(plan, cover, *pc, *ssn),
        Image::NotEquipped => false,
        Image::TooLong => false,
    }
}

pub(crate) fn all_may_lead(plan: &Plan, cover: u32, images: &[Image]) -> bool
    requires { cover < length plan.now.covers }
    ensures { IsTrue result ↔ All (MayLead plan.now cover) images.now }
{
    for image in images {
        if !may_lead(plan, cover, image) {
            return false;
        }
    }
    true
}

/// Whether the class that titles go on to has a rank.
fn next_has_rank(ranks: &Ranks, image: &Image) -> bool
    ensures { IsTrue result ↔ NextHasRank (rank_in ranks.now) image.now }
{
    match image {
        Image::Next(next) => ranks.has(next),
        _ => true,
    }
}

pub(crate) fn all_next_have_ranks(ranks: &Ranks, images: &[Image]) -> bool
    ensures { IsTrue result ↔ All (NextHasRank (rank_in ranks.now)) images.now }
{
    for image in images {
        if !next_has_rank(ranks, image) {
            return false;
        }
    }
    true
}

/// Whether the class that titles go on to has a rank below the bound.
fn next_is_lower(ranks: &Ranks, bound: u8, image: &Image) -> bool
    ensures { IsTrue result ↔ NextIsLower (rank_in ranks.now) bound image.now }
{
    match image {
        Image::Next(next) => match ranks.get(next) {
            Some(rank) => rank < bound,
            None => false,
        },
        _ => true,
    }
}

pub(crate) fn all_next_are_lower(ranks: &Ranks, bound: u8, images: &[Image]) -> bool
    ensures { IsTrue result ↔ All (NextIsLower (rank_in ranks.now) bound) images.now }
{
    for image in images {
        if !next_is_lower(ranks, bound, image) {
            return false;
        }
    }
    true
}
