//! The words for why a text is no plan.
ghost use Rattle.std.specs.Prelude.{◌≡◌, ◌++◌, OnOk, IfOk};
ghost use Rattle.sccp_report.specs.PlanFaults.{place_text, counted_words, rule_words, plan_fault_words, plan_fault_text};

use crate::limits::put_beyond_count;
use crate::text::Text;
use plan_model::{Counted, Limits, Place, PlanFault};
use plan_rules::RuleFault;
use sccp_base::{Octets, OutOfMemory};
use std::alloc::Global;

// The place of a fault.
#[tactic(auto, unfolding(crate::specs::PlanFaults::place_text))]
fn put_place(text: &mut Text, place: &Place) -> Result<(), OutOfMemory>
    ensures { OnOk result (text.new ≡ text.old ++ place_text place.now) }
{
    match place {
        Place::Top(key) => text.put(key.name().as_bytes()),
        Place::Node(i, key) => {
            text.put_counted(b"node ", *i)?;
            text.put(b" ")?;
            text.put(key.name().as_bytes())
        }
        Place::Row(i, j, key) => {
            text.put_counted(b"node ", *i)?;
            text.put_counted(b" row ", *j)?;
            text.put(b" ")?;
            text.put(key.name().as_bytes())
        }
        Place::Cover(i, key) => {
            text.put_counted(b"cover ", *i)?;
            text.put(b" ")?;
            text.put(key.name().as_bytes())
        }
    }
}

fn put_rule_fault(text: &mut Text, fault: &RuleFault) -> Result<(), OutOfMemory>
    ensures { OnOk result (text.new ≡ text.old ++ rule_words fault.now) }
{
    match fault {
        RuleFault::Twice(first, second) => {
            text.put_counted(b"twice ", *first)?;
            text.put_counted(b" ", *second)
        }
        RuleFault::StripTooLong(row) => text.put_counted(b"strip too long ", *row),
        RuleFault::KindTwo(row) => text.put_counted(b"kind two ", *row),
        RuleFault::OutOfMemory => Ok(()),
    }
}

fn put_counted_words(text: &mut Text, counted: &Counted) -> Result<(), OutOfMemory>
    ensures { OnOk result (text.new ≡ text.old ++ counted_words counted.now) }
{
    match counted {
        Counted::Nodes => text.put(b"nodes"),
        Counted::Rows => text.put(b"rows"),
        Counted::Covers => text.put(b"covers"),
    }
}

// Words, and the place of a fault.
fn put_placed(text: &mut Text, words: &[u8], place: &Place) -> Result<(), OutOfMemory>
    ensures { OnOk result (text.new ≡ text.old ++ (words.now ++ place_text place.now)) }
{
    text.put(words)?;
    put_place(text, place)
}

fn put_plan_fault(text: &mut Text, limits: Limits, fault: &PlanFault) -> Result<(), OutOfMemory>
    ensures { OnOk result (text.new ≡ text.old ++ plan_fault_words limits fault.now) }
{
    match fault {
        PlanFault::NotToml => text.put(b"not toml"),
        PlanFault::WrongShape(place) => put_placed(text, b"wrong shape ", place),
        PlanFault::BadValue(place) => put_placed(text, b"bad value ", place),
        PlanFault::Repeated(place) => put_placed(text, b"repeated ", place),
        PlanFault::UnknownNode(place) => put_placed(text, b"unknown node ", place),
        PlanFault::RelayToSelf(place) => put_placed(text, b"relay to self ", place),
        PlanFault::Rule(node, fault) => {
            text.put_numbered(b"rule node ", u32::from(*node))?;
            text.put(b" ")?;
            put_rule_fault(text, fault)
        }
        PlanFault::NoCover => text.put(b"no cover"),
        PlanFault::Limit(counted) => {
            text.put(b"limit ")?;
            put_counted_words(text, counted)?;
            put_beyond_count(text, limits, counted)
        }
        PlanFault::BadCover(place) => put_placed(text, b"bad cover ", place),
        PlanFault::OutOfMemory => Ok(()),
    }
}

/// Why a text is no plan under limits, with a line feed at the end: the fault, and its place. A limit that was passed is named if
/// it is not the standard one.
#[tactic(auto, unfolding(crate::specs::PlanFaults::plan_fault_text))]
pub fn plan_fault_text(
    alloc: Global,
    limits: Limits,
    fault: &PlanFault,
) -> Result<Octets, OutOfMemory>
    ensures { IfOk result (λ text. text ≡ plan_fault_text limits fault.now) }
{
    let mut text = Text::new(alloc);
    put_plan_fault(&mut text, limits, fault)?;
    text.put(b"\n")?;
    Ok(text.into_octets())
}
