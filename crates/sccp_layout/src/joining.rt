//! Writing a message from its parts (Q.713 sections 1 and 2).
ghost use Rattle.std.specs.Prelude.{◌≡◌, ◌≢◌, ◌<◌, ◌≤◌, ◌+◌, ◌&&◌, ◌==◌, ◌++◌, [], ◌∷◌, length, IsTrue, Some, None, IfOk, OnOk};
ghost use Rattle.std.specs.List.{flat_map, AllByRecursion};
ghost use Rattle.sccp_layout.specs.Table.{layout_of};
ghost use Rattle.sccp_layout.specs.Places.{after_pointers};
ghost use Rattle.sccp_layout.specs.Parts.{parts_made, Fits, FitsLayout, HasParts};
ghost use Rattle.sccp_layout.specs.Joining.{most, number_octets, spelled_parts, spelled_parameter, spelled_list, optional_pieces};
ghost use Rattle.sccp_layout.specs.Joining.{pointers_to, first_long, with_number, with_numbers, are_short, joining, Gives};
ghost use Rattle.sccp_layout.specs.declared.shape.Layout.{Layout};

use crate::param::Param;
use crate::part::Part;
use crate::parts::{JoinFault, Parts};
use crate::shape::Layout;
use crate::splitting::{after_pointers_of, pointer_place_of, width_of};
use crate::table::layout;
use sccp_base::Octets;
use std::alloc::{AllocError, Global};

// The largest number of one octet, or of two.
fn most_of(two: bool) -> usize
    ensures { result ≡ most two }
{
    if two { 65535 } else { 255 }
}

// Whether the length of variable part i has two octets. In the long types, only the data have such a length.
fn is_long(layout: &Layout, i: u8) -> bool
    ensures { result ≡ (layout.now.long && (i == 2)) }
{
    layout.long && i == 2
}

// Adds a pointer or a length: a number of one octet, or of two with the low one first.
fn push_number(octets: &mut Vec<u8>, two: bool, number: usize) -> Result<(), AllocError>
    requires { number ≤ most two }
    ensures { OnOk result (octets.new.items ≡ octets.old.items ++ number_octets two number) }
{
    if two {
        octets.extend_from_slice(&[(number % 256) as u8, (number / 256) as u8])
    } else {
        octets.push(number as u8)?;
        Ok(())
    }
}

// Whether the length of each parameter fits its octet.
fn are_short(params: &[Param]) -> bool
    ensures { result ≡ are_short params.now }
{
    params.iter().all(|param| param.octets().len() <= 255)
}

// The first part that is longer than its length can say. The parameters count as the part after the variable ones.
fn long_part(layout: &Layout, variable: &[Part<'_>], params: &[Param]) -> Option<u8>
    requires { length variable.now ≡ layout.now.variable }
    ensures { result ≡ first_long layout.now 0 variable.now params.now }
{
    for i in 0..layout.variable {
        if variable[usize::from(i)].as_slice().len() > most_of(is_long(layout, i)) {
            return Some(i);
        }
    }
    if are_short(params) {
        None
    } else {
        Some(layout.variable)
    }
}

// Adds pointer i after the octets. `PointerTooFar` if its value does not fit.
fn with_pointer(
    mut octets: Vec<u8>,
    layout: &Layout,
    i: u8,
    pointer: usize,
) -> Result<Vec<u8>, JoinFault>
    ensures { Gives (λ v. v.items) result (with_number layout.now i octets.items pointer) }
{
    if pointer > most_of(layout.long) {
        return Err(JoinFault::PointerTooFar(i));
    }
    push_number(&mut octets, layout.long, pointer)?;
    Ok(octets)
}

// Adds the pointer to the optional part after the octets, if the type has one. It is 0 if there is no parameter.
fn with_optional_pointer(
    octets: Vec<u8>,
    layout: &Layout,
    params: &[Param],
    place: usize,
) -> Result<Vec<u8>, JoinFault>
    requires small { layout.now.variable < 8 }
    requires behind { after_pointers layout.now ≤ place }
    ensures { let l = layout.now in
        let pointers = pointers_to l l.variable place (optional_pieces l params.now) in
        Gives (λ v. v.items) result (with_numbers l l.variable octets.items pointers) }
{
    if !layout.optional {
        return Ok(octets);
    }
    let pointer = if params.is_empty() {
        0
    } else {
        place - pointer_place_of(layout, layout.variable) - usize::from(layout.long)
    };
    with_pointer(octets, layout, layout.variable, pointer)
}

// Adds all pointers after the octets. Each is computed from the lengths of the parts before its own. A pointer counts
// from itself, and one of two octets from its second octet.
fn with_pointers(
    mut octets: Vec<u8>,
    layout: &Layout,
    variable: &[Part<'_>],
    params: &[Param],
) -> Result<Vec<u8>, JoinFault>
    requires small { layout.now.variable < 8 }
    requires count { length variable.now ≡ layout.now.variable }
    requires short { first_long layout.now 0 variable.now [] ≡ None }
    ensures { let l = layout.now in
        let all = spelled_parts l 0 variable.now ++ optional_pieces l params.now in
        Gives (λ v. v.items) result (with_numbers l 0 octets.items (pointers_to l 0 (after_pointers l) all)) }
{
    let mut place = after_pointers_of(layout);
    for i in 0..layout.variable {
        let pointer = place - pointer_place_of(layout, i) - usize::from(layout.long);
        octets = with_pointer(octets, layout, i, pointer)?;
        let length = variable[usize::from(i)].as_slice().len();
        place += length + width_of(is_long(layout, i));
    }
    with_optional_pointer(octets, layout, params, place)
}

// Adds the variable parts, each a length and its contents.
fn push_parts(
    octets: &mut Vec<u8>,
    layout: &Layout,
    variable: &[Part<'_>],
) -> Result<(), AllocError>
    requires count { length variable.now ≡ layout.now.variable }
    requires short { first_long layout.now 0 variable.now [] ≡ None }
    ensures { let parts = flat_map (λ piece. piece) (spelled_parts layout.now 0 variable.now) in
        OnOk result (octets.new.items ≡ octets.old.items ++ parts) }
{
    for i in 0..layout.variable {
        let part = variable[usize::from(i)].as_slice();
        push_number(octets, is_long(layout, i), part.len())?;
        octets.extend_from_slice(part)?;
    }
    Ok(())
}

// Adds the optional parameters, each a name, a length and its contents.
fn push_params(octets: &mut Vec<u8>, params: &[Param]) -> Result<(), AllocError>
    requires { IsTrue (are_short params.now) }
    ensures spelled { let list = flat_map spelled_parameter params.now in
        OnOk result (octets.new.items ≡ octets.old.items ++ list) }
    ensures named { OnOk result (AllByRecursion (λ p. p.name ≢ 0) params.now) }
{
    for param in params {
        let contents = param.octets();
        octets.extend_from_slice(&[param.name(), contents.len() as u8])?;
        octets.extend_from_slice(contents)?;
    }
    Ok(())
}

// Adds the optional parameters and their end octet 00. If there are no parameters, nothing is added.
fn push_list(octets: &mut Vec<u8>, params: &[Param]) -> Result<(), AllocError>
    requires { IsTrue (are_short params.now) }
    ensures spelled { OnOk result (octets.new.items ≡ octets.old.items ++ spelled_list params.now) }
    ensures named { OnOk result (AllByRecursion (λ p. p.name ≢ 0) params.now) }
{
    if params.is_empty() {
        return Ok(());
    }
    push_params(octets, params)?;
    octets.push(0)?;
    Ok(())
}

// How many octets the message has at most, for its one buffer. If no memory holds so much, it is the largest number.
fn room_for(layout: &Layout, variable: &[Part<'_>], params: &[Param]) -> usize
    requires { layout.now.variable < 8 }
{
    let mut room = after_pointers_of(layout) + 1;
    for part in variable {
        room = room.saturating_add(part.as_slice().len()).saturating_add(2);
    }
    params.iter().fold(room, |room, param| {
        room.saturating_add(param.octets().len()).saturating_add(2)
    })
}

// The type and the fixed part, in a buffer with room for `room` octets.
fn started(alloc: Global, room: usize, code: u8, fixed: &[u8]) -> Result<Vec<u8>, AllocError>
    ensures { IfOk result (λ octets. octets.items ≡ code ∷ fixed.now) }
{
    let mut octets = Vec::with_capacity(alloc, room)?;
    octets.push(code)?;
    octets.extend_from_slice(fixed)?;
    Ok(octets)
}

// The message of parts that fit a layout and are not too long.
fn short_joined(
    alloc: Global,
    layout: &Layout,
    code: u8,
    fixed: &[u8],
    variable: &[Part<'_>],
    params: &[Param],
) -> Result<Octets, JoinFault>
    requires small { layout.now.variable < 8 }
    requires fits { Fits layout.now (parts_made code fixed.now variable.now params.now) }
    requires short { first_long layout.now 0 variable.now params.now ≡ None }
    ensures exact { Gives (λ octets. octets) result (joining layout.now (parts_made code fixed.now variable.now params.now)) }
    ensures named { OnOk result (AllByRecursion (λ p. p.name ≢ 0) params.now) }
{
    let start = started(alloc, room_for(layout, variable, params), code, fixed)?;
    let mut octets = with_pointers(start, layout, variable, params)?;
    push_parts(&mut octets, layout, variable)?;
    push_list(&mut octets, params)?;
    Ok(Octets::from_vec(octets))
}

// The message of parts that fit a layout, or the first fault.
fn joined(
    alloc: Global,
    layout: &Layout,
    code: u8,
    fixed: &[u8],
    variable: &[Part<'_>],
    params: &[Param],
) -> Result<Octets, JoinFault>
    requires small { layout.now.variable < 8 }
    requires fits { Fits layout.now (parts_made code fixed.now variable.now params.now) }
    ensures exact { Gives (λ octets. octets) result (joining layout.now (parts_made code fixed.now variable.now params.now)) }
    ensures named { OnOk result (AllByRecursion (λ p. p.name ≢ 0) params.now) }
{
    match long_part(layout, variable, params) {
        Some(i) => Err(JoinFault::TooLong(i)),
        None => short_joined(alloc, layout, code, fixed, variable, params),
    }
}

/// Writes the message of these parts, as `join` does, from parts that are kept apart. Each is copied once. The faults are
/// those of `join`.
pub fn join_parts(
    alloc: Global,
    code: u8,
    fixed: &[u8],
    variable: &[Part<'_>],
    params: &[Param],
) -> Result<Octets, JoinFault>
    requires { FitsLayout (parts_made code fixed.now variable.now params.now) }
    ensures exact { (l : Layout) → layout_of code ≡ Some l →
        Gives (λ octets. octets) result (joining l (parts_made code fixed.now variable.now params.now)) }
    ensures again { IfOk result (λ octets. HasParts octets (parts_made code fixed.now variable.now params.now)) }
{
    let layout = layout(code).unwrap();
    joined(alloc, &layout, code, fixed, variable, params)
}

/// Writes the message of these parts (Q.713 sections 1 and 2). They follow in pointer order without gaps, the optional
/// part last. The pointer to it is 0 if there is no parameter.
///
/// `TooLong` for the first part that is longer than its length can say; the optional parameters count as the part after
/// the variable ones. Otherwise `PointerTooFar` for the first pointer whose value does not fit.
pub fn join(alloc: Global, parts: &Parts<'_>) -> Result<Octets, JoinFault>
    requires { FitsLayout parts.now }
    ensures exact { (l : Layout) → layout_of parts.now.code ≡ Some l →
        Gives (λ octets. octets) result (joining l parts.now) }
    ensures again { IfOk result (λ octets. HasParts octets parts.now) }
{
    join_parts(
        alloc,
        parts.code,
        parts.fixed.as_slice(),
        parts.variable.as_slice(),
        parts.params.as_slice(),
    )
}
