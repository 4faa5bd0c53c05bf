//! The search for a title that an outage stops.
ghost use Rattle.std.specs.Prelude.{ℕ, ◌≡◌, ◌⊎◌, ◌+◌, ◌-◌, ◌≤◌, ◌<◌, false, true, length, IfOk, OnOk, Some};
ghost use Rattle.plan_classes.specs.Titles.{IsClass, parts_of};
ghost use Rattle.plan_classes.specs.declared.leads.Image.TheVariants.{Next, Ends};
ghost use Rattle.plan_classes.specs.Classes.{Decided, HasImage, class_row};
ghost use Rattle.plan_classes.specs.Leading.{ImageIsExact};
ghost use Rattle.plan_margin.specs.declared.found.Found.TheVariants.{Stopped as StoppedFound};
ghost use Rattle.plan_margin.specs.Searching.{MayExplore, MayChoose, IsOutageSet, IsFound, IsFoundIf, IsWithinLimit, most_ways};
ghost use Rattle.plan_margin.specs.Searching.{PassesOver, TakesIn};
ghost use Rattle.plan_margin.specs.Searching.{IsTurn};
ghost use Rattle.plan_margin.specs.Searching.{IsInWith};
ghost use Rattle.plan_margin.specs.declared.turn.Turn.TheVariants.{Either};
ghost use Rattle.plan_margin.specs.Ways.{AtClass, AtClasses, AtTargets, AtTarget, Counts, CountsUp, CountsLost};

use crate::choice::Choice;
use crate::found::{Found, joined};
use crate::outage_set::OutageSet;
use crate::turn::{Turn, turn_at};
use plan_check::allows;
use plan_classes::{
    Class, Image, carry_back, class_row, decided, image_by, longest, parts, sample,
};
use plan_model::Plan;
use sccp_base::{Digits, Mark, OutOfMemory, PointCode};
use std::alloc::Global;

/// The number of classes at which the search gives up.
const LIMIT: u32 = 1_048_576;

/// Looks for a title of a class that does not arrive in an outage of the set, if its route may have `left` more hops. `count` is
/// the number of classes that the search has met.
#[cycle(search)]
pub(crate) fn explore(
    alloc: Global,
    plan: &Plan,
    class: &Class,
    left: u8,
    set: &OutageSet,
    count: &mut u32,
) -> Result<Found, OutOfMemory>
    requires left { left ≤ 14 }
    requires may { MayExplore plan.now class.now }
    requires set { IsOutageSet plan.now set.now }
    requires few { count.old < most_ways }
    ensures found { IfOk result (IsFound plan.now class.now left set.now) }
    ensures limit { IfOk result (λ found. IsWithinLimit found count.new) }
    ensures ways { OnOk result (Counts plan.now set.now left (AtClass class.now) count.old count.new) }
{
    if left == 0 {
        return stopped(alloc, set, sample(class));
    }
    *count += 1;
    if *count == LIMIT {
        return Ok(Found::Wide);
    }
    if decided(plan, class) {
        explore_targets(alloc, plan, class, left, set, count)
    } else {
        explore_parts(alloc, plan, class, left, set, count)
    }
}

/// The title with these digits, and the losses of each outage of the set.
fn stopped(alloc: Global, set: &OutageSet, digits: Digits) -> Result<Found, OutOfMemory>
    ensures { IfOk result (λ found. found ≡ StoppedFound digits set.now.lost) }
{
    Ok(Found::Stopped {
        digits,
        lost: set.lost.try_clone(alloc)?,
    })
}

/// Looks for a stopped title among the parts of a class.
#[cycle(search)]
fn explore_parts(
    alloc: Global,
    plan: &Plan,
    class: &Class,
    left: u8,
    set: &OutageSet,
    count: &mut u32,
) -> Result<Found, OutOfMemory>
    requires left { left ≤ 14 }
    requires may { MayExplore plan.now class.now }
    requires more { 0 < class.now.most }
    requires set { IsOutageSet plan.now set.now }
    requires few { count.old < most_ways }
    ensures found { IfOk result (IsFound plan.now class.now left set.now) }
    ensures limit { IfOk result (λ found. IsWithinLimit found count.new) }
    ensures ways { OnOk result (Counts plan.now set.now left (AtClasses (parts_of class.now)) count.old count.new) }
{
    let mut cut = false;
    let parts = parts(alloc, class)?;
    for part in parts.as_slice() {
        match explore(alloc, plan, part, left, set, count)? {
            Found::Through { cut: other } => cut = cut | other,
            found => return Ok(found),
        }
    }
    Ok(Found::Through { cut })
}

/// Looks for a stopped title among those of a decided class.
#[cycle(search)]
fn explore_targets(
    alloc: Global,
    plan: &Plan,
    class: &Class,
    left: u8,
    set: &OutageSet,
    count: &mut u32,
) -> Result<Found, OutOfMemory>
    requires some { 0 < left }
    requires left { left ≤ 14 }
    requires may { MayExplore plan.now class.now }
    requires class { IsClass class.now }
    requires decided { Decided plan.now class.now }
    requires set { IsOutageSet plan.now set.now }
    requires few { count.old < most_ways }
    ensures found { IfOk result (IsFound plan.now class.now left set.now) }
    ensures limit { IfOk result (λ found. IsWithinLimit found count.new) }
    ensures ways { OnOk result (Counts plan.now set.now left (AtTargets class.now 0) count.old count.new) }
{
    match class_row(plan, class) {
        Some(row) => {
            let choice = Choice {
                class,
                row,
                place: 0,
                left,
            };
            follow_row(alloc, plan, &choice, set, count)
        }
        None => stopped(alloc, set, sample(class)),
    }
}

/// Looks for a stopped title of a choice, if the targets before it are closed.
#[cycle(search)]
fn follow_row(
    alloc: Global,
    plan: &Plan,
    choice: &Choice<'_>,
    set: &OutageSet,
    count: &mut u32,
) -> Result<Found, OutOfMemory>
    requires may { MayChoose plan.now choice.now }
    requires passes { PassesOver plan.now choice.now.class.now choice.now.place set.now }
    requires set { IsOutageSet plan.now set.now }
    requires few { count.old < most_ways }
    ensures found { IfOk result (IsFound plan.now choice.now.class.now choice.now.left set.now) }
    ensures limit { IfOk result (λ found. IsWithinLimit found count.new) }
    ensures ways { OnOk result
        (Counts plan.now set.now choice.now.left (AtTargets choice.now.class.now choice.now.place) count.old count.new) }
{
    match turn_at(plan, choice.class, choice.row, choice.place, set) {
        Turn::Past => stopped(alloc, set, sample(choice.class)),
        Turn::Lost => {
            let after = Choice {
                place: choice.place + 1,
                ..*choice
            };
            follow_row(alloc, plan, &after, set, count)
        }
        Turn::Taken => follow_target(alloc, plan, choice, set, count),
        Turn::Either(mark) => follow_either(alloc, plan, choice, &mark, set, count),
    }
}

/// Looks for a stopped title, first if a mark that closes the target is not held, then if it is.
#[cycle(search)]
fn follow_either(
    alloc: Global,
    plan: &Plan,
    choice: &Choice<'_>,
    mark: &Mark,
    set: &OutageSet,
    count: &mut u32,
) -> Result<Found, OutOfMemory>
    requires may { MayChoose plan.now choice.now }
    requires short { length choice.now.row.now.targets ≤ 8 }
    requires passes { PassesOver plan.now choice.now.class.now choice.now.place set.now }
    requires turn { IsTurn plan.now choice.now.class.now choice.now.place set.now (Either mark.now) }
    requires set { IsOutageSet plan.now set.now }
    requires few { count.old < most_ways }
    ensures found { IfOk result (IsFound plan.now choice.now.class.now choice.now.left set.now) }
    ensures limit { IfOk result (λ found. IsWithinLimit found count.new) }
    ensures ways { OnOk result
        (Counts plan.now set.now choice.now.left (AtTargets choice.now.class.now choice.now.place) count.old count.new) }
{
    match follow_up(alloc, plan, choice, mark, set, count)? {
        Found::Through { cut } => {
            let found = follow_lost(alloc, plan, choice, mark, set, count)?;
            Ok(joined(cut, found))
        }
        found => Ok(found),
    }
}

/// Looks for a stopped title in the outages of the set in which the mark is not held. The target may have further marks, so it is
/// looked at again.
#[cycle(search)]
fn follow_up(
    alloc: Global,
    plan: &Plan,
    choice: &Choice<'_>,
    mark: &Mark,
    set: &OutageSet,
    count: &mut u32,
) -> Result<Found, OutOfMemory>
    requires may { MayChoose plan.now choice.now }
    requires passes { PassesOver plan.now choice.now.class.now choice.now.place set.now }
    requires turn { IsTurn plan.now choice.now.class.now choice.now.place set.now (Either mark.now) }
    requires set { IsOutageSet plan.now set.now }
    requires few { count.old < most_ways }
    ensures found { IfOk result
        (IsFoundIf plan.now choice.now.class.now choice.now.left set.now.most (IsInWith plan.now set.now mark.now false)) }
    ensures limit { IfOk result (λ found. IsWithinLimit found count.new) }
    ensures ways { OnOk result
        (CountsUp plan.now set.now choice.now.left choice.now.class.now choice.now.place mark.now count.old count.new) }
{
    let with_up = set.with_up(alloc, *mark)?;
    let found = follow_row(alloc, plan, choice, &with_up, count);
    drop(with_up);
    found
}

/// Looks for a stopped title in the outages of the set in which the mark is held. If there are as many losses already as there may
/// be, the search is cut.
#[cycle(search)]
fn follow_lost(
    alloc: Global,
    plan: &Plan,
    choice: &Choice<'_>,
    mark: &Mark,
    set: &OutageSet,
    count: &mut u32,
) -> Result<Found, OutOfMemory>
    requires may { MayChoose plan.now choice.now }
    requires short { length choice.now.row.now.targets ≤ 8 }
    requires passes { PassesOver plan.now choice.now.class.now choice.now.place set.now }
    requires turn { IsTurn plan.now choice.now.class.now choice.now.place set.now (Either mark.now) }
    requires set { IsOutageSet plan.now set.now }
    requires few { count.old < most_ways }
    ensures found { IfOk result
        (IsFoundIf plan.now choice.now.class.now choice.now.left set.now.most (IsInWith plan.now set.now mark.now true)) }
    ensures limit { IfOk result (λ found. IsWithinLimit found count.new) }
    ensures ways { OnOk result ((count.new ≡ count.old)
        ⊎ CountsLost plan.now set.now choice.now.left choice.now.class.now choice.now.place mark.now count.old count.new) }
{
    if set.lost.marks().len() == usize::from(set.most) {
        return Ok(Found::Through { cut: true });
    }
    let with_lost = set.with_lost(alloc, *mark)?;
    let after = Choice {
        place: choice.place + 1,
        ..*choice
    };
    let found = follow_row(alloc, plan, &after, &with_lost, count);
    drop(with_lost);
    found
}

/// Looks for a stopped title if each title takes the target.
#[cycle(search)]
fn follow_target(
    alloc: Global,
    plan: &Plan,
    choice: &Choice<'_>,
    set: &OutageSet,
    count: &mut u32,
) -> Result<Found, OutOfMemory>
    requires may { MayChoose plan.now choice.now }
    requires place { choice.now.place < length choice.now.row.now.targets }
    requires takes { TakesIn plan.now choice.now.class.now choice.now.place set.now }
    requires set { IsOutageSet plan.now set.now }
    requires few { count.old < most_ways }
    ensures found { IfOk result (IsFound plan.now choice.now.class.now choice.now.left set.now) }
    ensures limit { IfOk result (λ found. IsWithinLimit found count.new) }
    ensures ways { OnOk result
        (Counts plan.now set.now choice.now.left (AtTarget choice.now.class.now choice.now.place) count.old count.new) }
{
    match image_by(plan, choice.class, choice.row, choice.place) {
        Image::Next(next) => {
            let found = explore(alloc, plan, &next, choice.left - 1, set, count)?;
            Ok(carried(plan, choice, &next, set, found))
        }
        Image::Ends { pc, ssn } => end_at(alloc, plan, choice, pc, ssn, set),
        Image::NotEquipped => stopped(alloc, set, sample(choice.class)),
        Image::TooLong => stopped(alloc, set, longest(choice.class)),
    }
}

/// What was found of the next class, said of the class that the target makes it of.
fn carried(plan: &Plan, choice: &Choice<'_>, next: &Class, set: &OutageSet, found: Found) -> Found
    requires some { 0 < choice.now.left }
    requires node { choice.now.class.now.node < length plan.now.nodes }
    requires class { IsClass choice.now.class.now }
    requires decided { Decided plan.now choice.now.class.now }
    requires image { HasImage plan.now choice.now.class.now choice.now.place (Next next.now) }
    requires exact { ImageIsExact plan.now choice.now.class.now choice.now.place (Next next.now) }
    requires cover { next.now.cover ≡ choice.now.class.now.cover }
    requires takes { TakesIn plan.now choice.now.class.now choice.now.place set.now }
    requires found { IsFound plan.now next.now (choice.now.left - 1) set.now found }
    ensures found { IsFound plan.now choice.now.class.now choice.now.left set.now result }
    ensures limit { (count : ℕ) → IsWithinLimit found count → IsWithinLimit result count }
{
    match found {
        Found::Stopped { digits, lost } => Found::Stopped {
            digits: carry_back(plan, choice.class, choice.place, &digits),
            lost,
        },
        Found::Through { cut } => Found::Through { cut },
        Found::Wide => Found::Wide,
    }
}

/// What is found if the target ends all titles of a class at one place.
fn end_at(
    alloc: Global,
    plan: &Plan,
    choice: &Choice<'_>,
    pc: PointCode,
    ssn: u8,
    set: &OutageSet,
) -> Result<Found, OutOfMemory>
    requires some { 0 < choice.now.left }
    requires may { MayExplore plan.now choice.now.class.now }
    requires class { IsClass choice.now.class.now }
    requires decided { Decided plan.now choice.now.class.now }
    requires exact { ImageIsExact plan.now choice.now.class.now choice.now.place (Ends pc ssn) }
    requires takes { TakesIn plan.now choice.now.class.now choice.now.place set.now }
    requires set { IsOutageSet plan.now set.now }
    ensures found { IfOk result (IsFound plan.now choice.now.class.now choice.now.left set.now) }
    ensures limit { (count : ℕ) → count < most_ways → IfOk result (λ found. IsWithinLimit found count) }
{
    if allows(plan, choice.class.cover(), pc, ssn) {
        Ok(Found::Through { cut: false })
    } else {
        stopped(alloc, set, sample(choice.class))
    }
}
