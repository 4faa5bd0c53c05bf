//! The number of losses before a title is stopped, from none on.
ghost use Rattle.std.specs.Prelude.{◌≡◌, ◌<◌, ◌≤◌, ◌+◌, IfOk, IsSomeAnd, length, replicate, slice_get};
ghost use Rattle.sccp_base.specs.declared.mark.Mark.{Mark};
ghost use Rattle.sccp_base.specs.declared.mark.Mark.TheVariants.{PointCode as PointMark};
ghost use Rattle.sccp_base.specs.Marks.{holds, same_mark};
ghost use Rattle.plan_model.specs.Network.{IsPlan, point_of};
ghost use Rattle.plan_classes.specs.Titles.{spot_of};
ghost use Rattle.plan_classes.specs.Classes.{start_of};
ghost use Rattle.plan_margin.specs.Outages.{route_in};
ghost use Rattle.plan_margin.specs.Searching.{MayExplore, IsFoundIf, Spares};
ghost use Rattle.plan_margin.specs.Ways.{HasWays, IfWide};
ghost use Rattle.plan_margin.specs.Margins.{IsMargin};

use crate::found::Found;
use crate::loss_kinds::LossKinds;
use crate::margin::Margin;
use crate::outage_set::OutageSet;
use crate::search::explore;
use crate::stop::Stop;
use plan_classes::{Class, start};
use plan_model::{Plan, route};
use sccp_base::{Digits, List, Mark, Marking, OutOfMemory};
use std::alloc::Global;

/// How many losses of these kinds there can be before a title of this cover is stopped, up to `losses`. The search goes over all
/// outages of no loss, of one, of two and so on. All relays hold an outage's losses prohibited (Q.714 section 5); the point of the
/// entry relay, which the cover's titles reach first, is not among them.
pub fn find_margin(
    alloc: Global,
    plan: &Plan,
    cover: u16,
    kinds: LossKinds,
    losses: u8,
) -> Result<Margin, OutOfMemory>
    requires cover { cover < length plan.now.covers }
    requires few { losses ≤ 99 }
    ensures { IfOk result (IsMargin plan.now kinds cover losses) }
{
    let class = start_in(plan, cover);
    for most in 0..losses + 1 {
        match explore_start(alloc, plan, &class, kinds, most)? {
            Found::Stopped { digits, lost } => {
                return Ok(Margin::Stopped(stop(alloc, plan, &class, &digits, &lost)?));
            }
            Found::Through { cut } => {
                if !cut {
                    return Ok(Margin::SurvivesAny);
                }
            }
            Found::Wide => return Ok(Margin::TooWide(most)),
        }
    }
    Ok(Margin::Survives)
}

/// The titles of the cover, which are at a relay of the plan.
fn start_in(plan: &Plan, cover: u16) -> Class
    requires { cover < length plan.now.covers }
    ensures value { IsSomeAnd (slice_get plan.now.covers cover) (λ c. result ≡ start_of cover c) }
    ensures may { MayExplore plan.now result }
    ensures plan { IsPlan plan.now }
{
    let _covers = plan.covers();
    start(plan, u32::from(cover))
}

/// The search for a stopped title of a cover, in all outages of up to this number of losses that spare the relay of the cover.
fn explore_start(
    alloc: Global,
    plan: &Plan,
    class: &Class,
    kinds: LossKinds,
    most: u8,
) -> Result<Found, OutOfMemory>
    requires may { MayExplore plan.now class.now }
    ensures found { IfOk result (IsFoundIf plan.now class.now 14 most (Spares plan.now kinds class.now.node)) }
    ensures ways { IfOk result (IfWide (HasWays plan.now kinds most class.now)) }
{
    let up = entry_up(alloc, plan, class)?;
    let set = OutageSet {
        kinds,
        lost: Marking::new(alloc),
        up,
        most,
    };
    let mut count = 0;
    let found = explore(alloc, plan, class, 14, &set, &mut count);
    drop(set);
    found
}

/// The mark of the point at which the titles of the class are.
fn entry_up(alloc: Global, plan: &Plan, class: &Class) -> Result<Marking, OutOfMemory>
    requires may { class.now.node < length plan.now.nodes }
    ensures { IfOk result (λ up. (m : Mark) → holds up m ≡ same_mark (PointMark (point_of plan.now class.now.node)) m) }
{
    let node = &plan.nodes().as_slice()[usize::from(class.node())];
    let mut up = Marking::new(alloc);
    match up.prohibit(Mark::PointCode(node.pc)) {
        Ok(()) => Ok(up),
        Err(fault) => {
            drop(up);
            Err(fault)
        }
    }
}

/// A title that these losses stop, with its route.
fn stop(
    alloc: Global,
    plan: &Plan,
    class: &Class,
    digits: &Digits,
    lost: &Marking,
) -> Result<Stop, OutOfMemory>
    requires { class.now.node < length plan.now.nodes }
    ensures spot { IfOk result (λ stop. stop.spot ≡ spot_of class.now digits.now) }
    ensures markings { IfOk result (λ stop. stop.markings ≡ replicate 14 lost.now) }
    ensures hops { IfOk result (λ stop. stop.hops ≡ route_in plan.now lost.now (spot_of class.now digits.now)) }
{
    let markings = copies(alloc, lost)?;
    let hops = route(alloc, plan, class.spot_of(digits), markings.as_slice())?;
    Ok(Stop {
        spot: class.spot_of(digits),
        markings,
        hops,
    })
}

/// These marks, once for each hop that a route may have.
fn copies(alloc: Global, marks: &Marking) -> Result<List<Marking>, OutOfMemory>
    ensures { IfOk result (λ copies. copies ≡ replicate 14 marks.now) }
{
    let mut copies = List::new(alloc);
    for _ in 0..14_u8 {
        copies.push(marks.try_clone(alloc)?)?;
    }
    Ok(copies)
}
