//! Taking a message apart by its layout (Q.713 sections 1 and 2).
ghost use Rattle.std.specs.Prelude.{◌≡◌, ◌<◌, ◌≤◌, ◌+◌, length, Some, None, IfOk, Ok, if◌then◌else◌};
ghost use Rattle.std.specs.List.{range_with_len};
ghost use Rattle.std.specs.Option.{option_copied, ok_or};
ghost use Rattle.sccp_base.specs.Answers.{all_ok};
ghost use Rattle.sccp_layout.specs.Places.{number_at, width, pointer_place, after_pointers, pointer, place, names_place, contents, listed};
ghost use Rattle.sccp_layout.specs.Parts.{FitsLayout, HasParts};
ghost use Rattle.sccp_layout.specs.declared.parts.Parts.{Parts};
ghost use Rattle.sccp_layout.specs.Splitting.{Gives, part_at, params_at, parts_by, parts_of};

use crate::param::Param;
use crate::part::Part;
use crate::parts::{Parts, SplitFault};
use crate::shape::Layout;
use crate::table::layout;
use sccp_base::{List, Octets};
use std::alloc::Global;

/// How many octets a pointer or a length has.
pub(crate) fn width_of(two: bool) -> usize
    ensures { result ≡ width two }
{
    if two { 2 } else { 1 }
}

// Reads a pointer or a length: a number of one octet, or of two with the low one first.
fn number(two: bool, octets: &[u8], at: usize) -> usize
    requires { at + width two ≤ length octets.now }
    ensures { result ≡ number_at two octets.now at }
{
    if two {
        usize::from(octets[at]) + 256 * usize::from(octets[at + 1])
    } else {
        usize::from(octets[at])
    }
}

// The contents after a length, if all of them are inside the message.
fn contents_of(two: bool, octets: &[u8], at: usize) -> Option<&[u8]>
    requires { at ≤ length octets.now }
    ensures { option_copied result ≡ contents two octets.now at }
{
    let start = at + width_of(two);
    if octets.len() < start {
        return None;
    }
    octets.get(start..start + number(two, octets, at))
}

/// The place of pointer i. The pointer to the optional part follows those of the variable parts.
pub(crate) fn pointer_place_of(layout: &Layout, i: u8) -> usize
    ensures { result ≡ pointer_place layout.now i }
{
    1 + usize::from(layout.fixed) + width_of(layout.long) * usize::from(i)
}

/// The first place after all pointers.
pub(crate) fn after_pointers_of(layout: &Layout) -> usize
    requires { layout.now.variable < 8 }
    ensures { result ≡ after_pointers layout.now }
{
    pointer_place_of(layout, layout.variable + u8::from(layout.optional))
}

// The place that a pointer names, if it names one. A pointer counts from itself, and one of two octets from its second
// octet.
fn place_of(layout: &Layout, octets: &[u8], i: u8) -> Option<usize>
    requires small { layout.now.variable < 8 }
    requires inside { pointer_place layout.now i + width layout.now.long ≤ length octets.now }
    ensures { let l = layout.now in
        result ≡ (if names_place l octets.now i then Some (place l octets.now i) else None) }
{
    let at = pointer_place_of(layout, i);
    let pointer = number(layout.long, octets, at);
    let place = at + pointer + usize::from(layout.long);
    if pointer != 0 && place >= after_pointers_of(layout) && place < octets.len() {
        Some(place)
    } else {
        None
    }
}

// Variable part i: its pointer, and then its length and contents. In the long types, only the data have a long length.
fn part_of<'a>(layout: &Layout, octets: &'a [u8], i: u8) -> Result<&'a [u8], SplitFault>
    requires small { layout.now.variable < 8 }
    requires inside { pointer_place layout.now i + width layout.now.long ≤ length octets.now }
    ensures { Gives (λ x. x.now) result (part_at layout.now octets.now i) }
{
    let place = place_of(layout, octets, i).ok_or(SplitFault::BadPointer(i))?;
    contents_of(layout.long && i == 2, octets, place).ok_or(SplitFault::BadPart(i))
}

// The variable parts in the order of their pointers.
fn variable_of<'a>(
    alloc: Global,
    layout: &Layout,
    octets: &'a [u8],
) -> Result<List<Part<'a>>, SplitFault>
    requires small { layout.now.variable < 8 }
    requires inside { after_pointers layout.now ≤ length octets.now }
    ensures { let l = layout.now in
        Gives (λ x. x) result (all_ok (part_at l octets.now) (range_with_len 0 l.variable)) }
{
    let mut variable = List::new(alloc);
    for i in 0..layout.variable {
        let part = part_of(layout, octets, i)?;
        variable.push(Part::new(part))?;
    }
    Ok(variable)
}

// The optional parameters from a place up to the end octet. Each of them has two octets at least, so the number of turns
// is at most the number of octets.
fn listed_of(alloc: Global, octets: &[u8], at: usize) -> Result<List<Param>, SplitFault>
    ensures { Gives (λ x. x) result (ok_or (listed octets.now at) SplitFault.BadOptional) }
{
    let mut params = List::new(alloc);
    let mut place = at;
    for _ in 0..octets.len() {
        if octets.len() <= place {
            return Err(SplitFault::BadOptional);
        }
        let name = octets[place];
        if name == 0 {
            return Ok(params);
        }
        let contents = contents_of(false, octets, place + 1).ok_or(SplitFault::BadOptional)?;
        let copy = Octets::from_vec(Vec::from_slice(alloc, contents)?);
        params.push(Param::new(name, copy).unwrap())?;
        place += 2 + contents.len();
    }
    Err(SplitFault::BadOptional)
}

// The optional parameters. There are none if the type has no optional part, or the pointer to it is 0.
fn params_of(alloc: Global, layout: &Layout, octets: &[u8]) -> Result<List<Param>, SplitFault>
    requires small { layout.now.variable < 8 }
    requires inside { after_pointers layout.now ≤ length octets.now }
    ensures { Gives (λ x. x) result (params_at layout.now octets.now) }
{
    let i = layout.variable;
    if !layout.optional || number(layout.long, octets, pointer_place_of(layout, i)) == 0 {
        return Ok(List::new(alloc));
    }
    let place = place_of(layout, octets, i).ok_or(SplitFault::BadPointer(i))?;
    listed_of(alloc, octets, place)
}

// The parts of a message by its layout.
#[tactic(auto, unfolding(crate::specs::Splitting::parts_by))]
fn parts_with<'a>(
    alloc: Global,
    code: u8,
    layout: &Layout,
    octets: &'a [u8],
) -> Result<Parts<'a>, SplitFault>
    requires small { layout.now.variable < 8 }
    ensures { Gives (λ x. x) result (parts_by code layout.now octets.now) }
{
    if octets.len() < after_pointers_of(layout) {
        return Err(SplitFault::Short);
    }
    let fixed = Part::new(&octets[1..1 + usize::from(layout.fixed)]);
    let variable = variable_of(alloc, layout, octets)?;
    let params = params_of(alloc, layout, octets)?;
    Ok(Parts {
        code,
        fixed,
        variable,
        params,
    })
}

// The parts by the one definition of what splitting gives. `split` promises the same by the places of the parts.
fn parts<'a>(alloc: Global, octets: &'a [u8]) -> Result<Parts<'a>, SplitFault>
    ensures { Gives (λ p. p) result (parts_of octets.now) }
{
    let [code, ..] = octets else {
        return Err(SplitFault::Short);
    };
    match layout(*code) {
        Some(layout) => parts_with(alloc, *code, &layout, octets),
        None => Err(SplitFault::UnknownType),
    }
}

/// Takes a message apart (Q.713 sections 1 and 2), or gives the first fault in the order of `SplitFault`. A message of no
/// octets is `Short`.
///
/// Parts may follow in any order, overlap or leave gaps. Octets after the last one are ignored. Only the optional
/// parameters are copied.
pub fn split<'a>(alloc: Global, octets: &'a [u8]) -> Result<Parts<'a>, SplitFault>
    ensures found { IfOk result (λ p. HasParts octets.now p) }
    ensures fits { IfOk result (λ p. FitsLayout p) }
    ensures only { (p : Parts) → HasParts octets.now p → Gives (λ p. p) result (Ok p) }
    ensures exact { Gives (λ p. p) result (parts_of octets.now) }
{
    parts(alloc, octets)
}
