//! The text of what is held prohibited.
ghost use Rattle.std.specs.Prelude.{◌≡◌, ◌++◌, OnOk};
ghost use Rattle.std.specs.List.{flat_map};
ghost use Rattle.sccp_report.specs.Hops.{destination_text, mark_text, next_mark_text, marks_text};

use crate::text::Text;
use crate::values::put_point_code;
use sccp_base::{Mark, OutOfMemory, PointCode};

/// Appends a point code and a subsystem number.
#[tactic(auto, unfolding(crate::specs::Hops::destination_text))]
pub fn put_destination(text: &mut Text, pc: PointCode, ssn: u8) -> Result<(), OutOfMemory>
    ensures { OnOk result (text.new ≡ text.old ++ destination_text pc ssn) }
{
    put_point_code(text, pc)?;
    text.put(b"/")?;
    text.put_number(u32::from(ssn))
}

/// Appends what is prohibited, and at which point.
#[tactic(auto, unfolding(crate::specs::Hops::mark_text))]
pub fn put_mark(text: &mut Text, mark: &Mark) -> Result<(), OutOfMemory>
    ensures { OnOk result (text.new ≡ text.old ++ mark_text mark.now) }
{
    match mark {
        Mark::PointCode(pc) => {
            text.put(b"point:")?;
            put_point_code(text, *pc)
        }
        Mark::Sccp(pc) => {
            text.put(b"sccp:")?;
            put_point_code(text, *pc)
        }
        Mark::Subsystem(pc, ssn) => {
            text.put(b"subsystem:")?;
            put_destination(text, *pc, *ssn)
        }
    }
}

// A mark after a comma.
#[tactic(auto, unfolding(crate::specs::Hops::next_mark_text))]
fn put_next_mark(text: &mut Text, mark: &Mark) -> Result<(), OutOfMemory>
    ensures { OnOk result (text.new ≡ text.old ++ next_mark_text mark.now) }
{
    text.put(b",")?;
    put_mark(text, mark)
}

// Marks, each after a comma.
fn put_next_marks(text: &mut Text, marks: &[Mark]) -> Result<(), OutOfMemory>
    ensures { OnOk result (text.new ≡ text.old ++ flat_map next_mark_text marks.now) }
{
    for mark in marks {
        put_next_mark(text, mark)?;
    }
    Ok(())
}

/// Appends the marks with commas between them, or that there is none.
#[tactic(auto, unfolding(crate::specs::Hops::marks_text))]
pub fn put_marks(text: &mut Text, marks: &[Mark]) -> Result<(), OutOfMemory>
    ensures { OnOk result (text.new ≡ text.old ++ marks_text marks.now) }
{
    match marks {
        [] => text.put(b"none"),
        [first, rest @ ..] => {
            put_mark(text, first)?;
            put_next_marks(text, rest)
        }
    }
}
