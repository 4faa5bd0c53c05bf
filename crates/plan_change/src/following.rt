//! The titles of a class on their next hop.
ghost use Rattle.std.specs.Prelude.{◌≡◌, ◌<◌, ◌⊎◌, IsTrue, false, length, IsSomeAnd, IfSome, IfOk, OnOk, Err, None, Some};
ghost use Rattle.plan_classes.specs.declared.leads.Image.TheVariants.{Ends};
ghost use Rattle.plan_classes.specs.Titles.{IsMember};
ghost use Rattle.plan_classes.specs.Classes.{class_row, Reaches};
ghost use Rattle.plan_classes.specs.Leading.{ImageIsExact, brought};
ghost use Rattle.plan_mixed.specs.Pairs.{old_of, new_of};
ghost use Rattle.plan_mixed.specs.Holdings.{MayHold};
ghost use Rattle.plan_mixed.specs.Mixed.{held, MixedReachAtLeast};
ghost use Rattle.plan_change.specs.declared.halt.Halt.TheVariants as halts;
ghost use Rattle.plan_change.specs.Stops.{Grows, IsMet, IsPair, MayGoOn, TargetGoesWell, LeadsUnder, LeadsInto, ComesFrom};
ghost use Rattle.plan_change.specs.Ways.{PairAllows, Forbids, IsBadStep, IsBadHere};

use crate::entering::enter;
use crate::halt::Halt;
use crate::open_hop::OpenHop;
use crate::plans::Plans;
use crate::stop::Origin;
use crate::way::{Way, one_turn};
use plan_check::allows;
use plan_classes::{Class, Image, class_row, image_by, longest, opening, reaches_by, sample};
use plan_mixed::{Which, new_of, old_of};
use plan_model::Plan;
use plan_rules::Row;
use sccp_base::{Digits, Marking, OutOfMemory, PointCode};
use std::alloc::Global;

/// Puts the titles that a class's titles become among the stops of the next hop, or gives a title with a bad end.
pub(crate) fn follow(
    alloc: Global,
    plans: &Plans<'_>,
    class: &Class,
    place: usize,
    hop: &mut OpenHop,
) -> Result<Option<Way>, Halt>
    requires may { MayGoOn plans.now.old.now plans.now.new.now class.now }
    requires met { IsMet plans.now.old.now plans.now.new.now hop.old.met hop.old.stops }
    ensures met { OnOk result (IsMet plans.now.old.now plans.now.new.now hop.new.met hop.new.stops) }
    ensures grows { OnOk result (Grows hop.old.stops hop.new.stops
        (ComesFrom plans.now.may.now plans.now.old.now plans.now.new.now class.now place)) }
    ensures well { IfOk result (λ way. way ≡ None
        → LeadsInto plans.now.may.now plans.now.old.now plans.now.new.now class.now hop.new.stops) }
    ensures bad { IfOk result (λ way. IfSome way (IsBadHere plans.now.may.now plans.now.old.now plans.now.new.now class.now)) }
    ensures wide { result ≡ Err halts.Wide → MixedReachAtLeast plans.now.old.now plans.now.new.now plans.now.old.now.limits.classes }
{
    match follow_if_held(alloc, plans, Which::Old, class, place, hop)? {
        Some(way) => Ok(Some(way)),
        None => follow_if_held(alloc, plans, Which::New, class, place, hop),
    }
}

/// As `follow`, under one plan, if the relay may hold it.
fn follow_if_held(
    alloc: Global,
    plans: &Plans<'_>,
    which: Which,
    class: &Class,
    place: usize,
    hop: &mut OpenHop,
) -> Result<Option<Way>, Halt>
    requires may { MayGoOn plans.now.old.now plans.now.new.now class.now }
    requires met { IsMet plans.now.old.now plans.now.new.now hop.old.met hop.old.stops }
    ensures met { OnOk result (IsMet plans.now.old.now plans.now.new.now hop.new.met hop.new.stops) }
    ensures grows { OnOk result (Grows hop.old.stops hop.new.stops
        (ComesFrom plans.now.may.now plans.now.old.now plans.now.new.now class.now place)) }
    ensures well { IfOk result (λ way. way ≡ None → MayHold plans.now.may.now class.now.node which → LeadsUnder plans.now.old.now
        plans.now.new.now (held plans.now.old.now plans.now.new.now which) class.now hop.new.stops) }
    ensures bad { IfOk result (λ way. IfSome way (IsBadHere plans.now.may.now plans.now.old.now plans.now.new.now class.now)) }
    ensures wide { result ≡ Err halts.Wide → MixedReachAtLeast plans.now.old.now plans.now.new.now plans.now.old.now.limits.classes }
{
    if !plans.lets(class.node(), which) {
        return Ok(None);
    }
    follow_plan(alloc, plans, which, class, place, hop)
}

/// As `follow`, under a plan that the relay may hold.
fn follow_plan(
    alloc: Global,
    plans: &Plans<'_>,
    which: Which,
    class: &Class,
    place: usize,
    hop: &mut OpenHop,
) -> Result<Option<Way>, Halt>
    requires lets { MayHold plans.now.may.now class.now.node which }
    requires may { MayGoOn plans.now.old.now plans.now.new.now class.now }
    requires met { IsMet plans.now.old.now plans.now.new.now hop.old.met hop.old.stops }
    ensures met { OnOk result (IsMet plans.now.old.now plans.now.new.now hop.new.met hop.new.stops) }
    ensures grows { OnOk result (Grows hop.old.stops hop.new.stops
        (ComesFrom plans.now.may.now plans.now.old.now plans.now.new.now class.now place)) }
    ensures well { IfOk result (λ way. way ≡ None → LeadsUnder plans.now.old.now plans.now.new.now
        (held plans.now.old.now plans.now.new.now which) class.now hop.new.stops) }
    ensures bad { IfOk result (λ way. IfSome way (IsBadHere plans.now.may.now plans.now.old.now plans.now.new.now class.now)) }
    ensures wide { result ≡ Err halts.Wide → MixedReachAtLeast plans.now.old.now plans.now.new.now plans.now.old.now.limits.classes }
{
    let Some(row) = class_row(plans.held(which), class) else {
        return Ok(Some(without_row(alloc, plans, which, class)?));
    };
    for target in 0..row.target_count() {
        let origin = Origin {
            place,
            which,
            target,
        };
        let found = follow_target(alloc, plans, class, row, origin, hop)?;
        if let Some(way) = found {
            return Ok(Some(way));
        }
    }
    Ok(None)
}

/// As `follow`, under the target of an origin.
fn follow_target(
    alloc: Global,
    plans: &Plans<'_>,
    class: &Class,
    row: &Row,
    origin: Origin,
    hop: &mut OpenHop,
) -> Result<Option<Way>, Halt>
    requires lets { MayHold plans.now.may.now class.now.node origin.which }
    requires may { MayGoOn plans.now.old.now plans.now.new.now class.now }
    requires row { class_row (held plans.now.old.now plans.now.new.now origin.which) class.now ≡ Some row.now }
    requires target { origin.target < length row.now.targets }
    requires met { IsMet plans.now.old.now plans.now.new.now hop.old.met hop.old.stops }
    ensures met { OnOk result (IsMet plans.now.old.now plans.now.new.now hop.new.met hop.new.stops) }
    ensures grows { OnOk result (Grows hop.old.stops hop.new.stops
        (ComesFrom plans.now.may.now plans.now.old.now plans.now.new.now class.now origin.place)) }
    ensures well { IfOk result (λ way. way ≡ None → TargetGoesWell plans.now.old.now plans.now.new.now
        (held plans.now.old.now plans.now.new.now origin.which) class.now origin.target hop.new.stops) }
    ensures bad { IfOk result (λ way. IfSome way (IsBadHere plans.now.may.now plans.now.old.now plans.now.new.now class.now)) }
    ensures wide { result ≡ Err halts.Wide → MixedReachAtLeast plans.now.old.now plans.now.new.now plans.now.old.now.limits.classes }
{
    let plan = plans.held(origin.which);
    if !reaches_by(plan, class, row, origin.target) {
        return Ok(None);
    }
    match image_by(plan, class, row, origin.target) {
        Image::Next(next) => {
            enter(alloc, plans, &next, origin, hop)?;
            Ok(None)
        }
        Image::Ends { pc, ssn } => Ok(ended(alloc, plans, class, origin, pc, ssn)?),
        Image::NotEquipped => Ok(Some(bad_way(alloc, plans, class, origin, sample(class))?)),
        Image::TooLong => Ok(Some(bad_way(alloc, plans, class, origin, longest(class))?)),
    }
}

/// A title of a class that a target ends at a place that one of the two covers does not allow.
fn ended(
    alloc: Global,
    plans: &Plans<'_>,
    class: &Class,
    origin: Origin,
    pc: PointCode,
    ssn: u8,
) -> Result<Option<Way>, OutOfMemory>
    requires lets { MayHold plans.now.may.now class.now.node origin.which }
    requires may { MayGoOn plans.now.old.now plans.now.new.now class.now }
    requires reached { Reaches (held plans.now.old.now plans.now.new.now origin.which) class.now origin.target }
    requires exact { ImageIsExact (held plans.now.old.now plans.now.new.now origin.which) class.now origin.target (Ends pc ssn) }
    ensures well { IfOk result (λ way. way ≡ None → PairAllows plans.now.old.now plans.now.new.now class.now.cover pc ssn) }
    ensures bad { IfOk result (λ way. IfSome way (IsBadHere plans.now.may.now plans.now.old.now plans.now.new.now class.now)) }
{
    if both_allow(plans, class.cover(), pc, ssn) {
        return Ok(None);
    }
    Ok(Some(bad_way(alloc, plans, class, origin, sample(class))?))
}

/// Whether both covers of a pair allow a place.
fn both_allow(plans: &Plans<'_>, number: u32, pc: PointCode, ssn: u8) -> bool
    requires pair { IsPair plans.now.old.now plans.now.new.now number }
    ensures yes { IsTrue result → PairAllows plans.now.old.now plans.now.new.now number pc ssn }
    ensures no { result ≡ false → Forbids plans.now.old.now (old_of number) pc ssn ⊎ Forbids plans.now.new.now (new_of number) pc ssn }
{
    if !allows(plans.old, old_of(number), pc, ssn) {
        return false;
    }
    if !allows(plans.new, new_of(number), pc, ssn) {
        return false;
    }
    true
}

/// The least title of a class for which a plan has no row.
fn without_row(
    alloc: Global,
    plans: &Plans<'_>,
    which: Which,
    class: &Class,
) -> Result<Way, OutOfMemory>
    requires lets { MayHold plans.now.may.now class.now.node which }
    requires row { class_row (held plans.now.old.now plans.now.new.now which) class.now ≡ None }
    ensures { IfOk result (IsBadHere plans.now.may.now plans.now.old.now plans.now.new.now class.now) }
{
    one_turn(
        alloc,
        class.spot_of(&sample(class)),
        which,
        Marking::new(alloc),
    )
}

/// A title of a class that the target of an origin gives a bad step, and the turn that takes this target.
fn bad_way(
    alloc: Global,
    plans: &Plans<'_>,
    class: &Class,
    origin: Origin,
    digits: Digits,
) -> Result<Way, OutOfMemory>
    requires lets { MayHold plans.now.may.now class.now.node origin.which }
    requires may { MayGoOn plans.now.old.now plans.now.new.now class.now }
    requires reached { Reaches (held plans.now.old.now plans.now.new.now origin.which) class.now origin.target }
    requires member { IsMember class.now digits }
    requires bad { IsSomeAnd (brought (held plans.now.old.now plans.now.new.now origin.which) class.now origin.target digits)
        (IsBadStep plans.now.old.now plans.now.new.now class.now.cover) }
    ensures { IfOk result (IsBadHere plans.now.may.now plans.now.old.now plans.now.new.now class.now) }
{
    let Origin { which, target, .. } = origin;
    let marking = opening(alloc, plans.held(which), class, target)?;
    one_turn(alloc, class.spot_of(&digits), which, marking)
}
