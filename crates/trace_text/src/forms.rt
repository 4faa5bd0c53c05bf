//! The forms of a line of a trace.
ghost use Rattle.std.specs.Prelude.{◌≡◌, IfOk, option_map};
ghost use Rattle.sccp_base.specs.Names.{name_of};
ghost use Rattle.trace_text.specs.Forms.{file_name, node_and_point, node_and_subsystem, message, line_of_fields, is_skipped, line_of_cut};
ghost use Rattle.trace_text.specs.Forms.{line_of};

use crate::file_name::is_file_name;
use crate::hex_word::octets_of;
use crate::line::Line;
use sccp_base::{Name, Octets, OutOfMemory, PointCode, byte, cut};
use std::alloc::Global;

/// The line that these octets write, if they write one.
#[tactic(auto, unfolding(crate::specs::Forms::line_of))]
pub fn line_of(alloc: Global, text: &[u8]) -> Result<Option<Line>, OutOfMemory>
    ensures { IfOk result (λ line. line ≡ line_of text.now) }
{
    if is_skipped(text) {
        return Ok(Some(Line::Skip));
    }
    match cut(text, b' ') {
        Some((word, fields)) => line_of_fields(alloc, word, fields),
        None => Ok(line_of_word(text)),
    }
}

/// Whether a line is empty or begins with `#`.
fn is_skipped(text: &[u8]) -> bool
    ensures { result ≡ is_skipped text.now }
{
    match text.first() {
        Some(octet) => *octet == b'#',
        None => true,
    }
}

/// The line of one word.
fn line_of_word(word: &[u8]) -> Option<Line>
    ensures { result ≡ line_of_cut word.now None }
{
    if word == b"fence".as_slice() {
        Some(Line::Fence)
    } else {
        None
    }
}

/// The line of a word and more fields.
#[tactic(auto, unfolding(crate::specs::Forms::line_of_fields))]
fn line_of_fields(alloc: Global, word: &[u8], fields: &[u8]) -> Result<Option<Line>, OutOfMemory>
    ensures { IfOk result (λ line. line ≡ line_of_fields word.now fields.now) }
{
    if word == b"msg".as_slice() {
        message(alloc, fields)
    } else if word == b"pause".as_slice() {
        Ok(pause(fields))
    } else if word == b"resume".as_slice() {
        Ok(resume(fields))
    } else if word == b"no-sccp".as_slice() {
        Ok(no_sccp(fields))
    } else if word == b"up".as_slice() {
        Ok(up(fields))
    } else if word == b"down".as_slice() {
        Ok(down(fields))
    } else if word == b"tick".as_slice() {
        Ok(tick(fields))
    } else if word == b"plan".as_slice() {
        plan(alloc, fields)
    } else {
        Ok(None)
    }
}

/// `NODE POINT HEX` after `msg`.
#[tactic(auto, unfolding(crate::specs::Forms::message))]
fn message(alloc: Global, fields: &[u8]) -> Result<Option<Line>, OutOfMemory>
    ensures { IfOk result (λ line. line ≡ message fields.now) }
{
    let Some((node, rest)) = cut(fields, b' ') else {
        return Ok(None);
    };
    let Some((origin, octets)) = cut(rest, b' ') else {
        return Ok(None);
    };
    let Some(origin) = PointCode::parse(origin) else {
        return Ok(None);
    };
    let Some(node) = Name::parse(node) else {
        return Ok(None);
    };
    match octets_of(alloc, octets)? {
        Some(octets) => Ok(Some(Line::Msg {
            node,
            origin,
            octets,
        })),
        None => Ok(None),
    }
}

fn pause(fields: &[u8]) -> Option<Line>
    ensures { result ≡ option_map (λ x. Line.Pause x.0 x.1) (node_and_point fields.now) }
{
    let (node, point) = node_and_point(fields)?;
    Some(Line::Pause(node, point))
}

fn resume(fields: &[u8]) -> Option<Line>
    ensures { result ≡ option_map (λ x. Line.Resume x.0 x.1) (node_and_point fields.now) }
{
    let (node, point) = node_and_point(fields)?;
    Some(Line::Resume(node, point))
}

fn no_sccp(fields: &[u8]) -> Option<Line>
    ensures { result ≡ option_map (λ x. Line.NoSccp x.0 x.1) (node_and_point fields.now) }
{
    let (node, point) = node_and_point(fields)?;
    Some(Line::NoSccp(node, point))
}

fn up(fields: &[u8]) -> Option<Line>
    ensures { result ≡ option_map (λ x. Line.Up x.0 x.1) (node_and_subsystem fields.now) }
{
    let (node, ssn) = node_and_subsystem(fields)?;
    Some(Line::Up(node, ssn))
}

fn down(fields: &[u8]) -> Option<Line>
    ensures { result ≡ option_map (λ x. Line.Down x.0 x.1) (node_and_subsystem fields.now) }
{
    let (node, ssn) = node_and_subsystem(fields)?;
    Some(Line::Down(node, ssn))
}

fn tick(fields: &[u8]) -> Option<Line>
    ensures { result ≡ option_map Line.Tick (name_of fields.now) }
{
    let node = Name::parse(fields)?;
    Some(Line::Tick(node))
}

/// `FILE` after `plan`.
fn plan(alloc: Global, fields: &[u8]) -> Result<Option<Line>, OutOfMemory>
    ensures { IfOk result (λ line. line ≡ option_map Line.Plan (file_name fields.now)) }
{
    if is_file_name(fields) {
        let name = Vec::from_slice(alloc, fields)?;
        Ok(Some(Line::Plan(Octets::from_vec(name))))
    } else {
        Ok(None)
    }
}

/// `NODE POINT`.
#[tactic(auto, unfolding(crate::specs::Forms::node_and_point))]
fn node_and_point(fields: &[u8]) -> Option<(Name, PointCode)>
    ensures { result ≡ node_and_point fields.now }
{
    let (node, point) = cut(fields, b' ')?;
    let node = Name::parse(node)?;
    let point = PointCode::parse(point)?;
    Some((node, point))
}

/// `NODE SSN`.
#[tactic(auto, unfolding(crate::specs::Forms::node_and_subsystem))]
fn node_and_subsystem(fields: &[u8]) -> Option<(Name, u8)>
    ensures { result ≡ node_and_subsystem fields.now }
{
    let (node, ssn) = cut(fields, b' ')?;
    let node = Name::parse(node)?;
    let ssn = byte(ssn)?;
    Some((node, ssn))
}
