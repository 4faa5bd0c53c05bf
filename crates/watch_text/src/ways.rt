//! Why a message is explained, or is not.
ghost use Rattle.std.specs.Prelude.{◌≡◌, ◌++◌, [], OnOk};
ghost use Rattle.std.specs.List.{flat_map};
ghost use Rattle.std.specs.Option.{option_map_or};
ghost use Rattle.watch_text.specs.Ways.{or_mark, list_text, next_list, lists_text, condition_text, taken_text, cause_text, handling_text};
ghost use Rattle.watch_text.specs.Ways.{way_text, or_way, ways_text, reason_words, why_words};

use crate::put::put_number;
use relay_watch::Why;
use relay_ways::{Condition, Explanation, Handling, Reason, Taken};
use sccp_base::{List, Mark, OutOfMemory};
use sccp_report::{Text, put_mark, put_marks};

/// A mark after another one of its list.
#[tactic(auto, unfolding(crate::specs::Ways::or_mark))]
fn put_or_mark(text: &mut Text, mark: &Mark) -> Result<(), OutOfMemory>
    ensures { OnOk result (text.new ≡ text.old ++ or_mark mark.now) }
{
    text.put(b"|")?;
    put_mark(text, mark)
}

fn put_or_marks(text: &mut Text, marks: &[Mark]) -> Result<(), OutOfMemory>
    ensures { OnOk result (text.new ≡ text.old ++ flat_map or_mark marks.now) }
{
    for mark in marks {
        put_or_mark(text, mark)?;
    }
    Ok(())
}

/// Appends marks of which one is held.
#[tactic(auto, unfolding(crate::specs::Ways::list_text))]
fn put_list(text: &mut Text, marks: &[Mark]) -> Result<(), OutOfMemory>
    ensures { OnOk result (text.new ≡ text.old ++ list_text marks.now) }
{
    match marks {
        [] => text.put(b"none"),
        [first, rest @ ..] => {
            put_mark(text, first)?;
            put_or_marks(text, rest)
        }
    }
}

/// A list after another one.
#[tactic(auto, unfolding(crate::specs::Ways::next_list))]
fn put_next_list(text: &mut Text, marks: &[Mark]) -> Result<(), OutOfMemory>
    ensures { OnOk result (text.new ≡ text.old ++ next_list marks.now) }
{
    text.put(b",")?;
    put_list(text, marks)
}

fn put_next_lists(text: &mut Text, lists: &[List<Mark>]) -> Result<(), OutOfMemory>
    ensures { OnOk result (text.new ≡ text.old ++ flat_map next_list lists.now) }
{
    for marks in lists {
        put_next_list(text, marks.as_slice())?;
    }
    Ok(())
}

#[tactic(auto, unfolding(crate::specs::Ways::lists_text))]
fn put_lists(text: &mut Text, lists: &[List<Mark>]) -> Result<(), OutOfMemory>
    ensures { OnOk result (text.new ≡ text.old ++ lists_text lists.now) }
{
    match lists {
        [] => text.put(b"none"),
        [first, rest @ ..] => {
            put_list(text, first.as_slice())?;
            put_next_lists(text, rest)
        }
    }
}

/// Appends what was held, and what was not.
#[tactic(auto, unfolding(crate::specs::Ways::condition_text))]
fn put_condition(text: &mut Text, condition: &Condition) -> Result<(), OutOfMemory>
    ensures { OnOk result (text.new ≡ text.old ++ condition_text condition.now) }
{
    text.put(b"held ")?;
    put_lists(text, condition.one_of.as_slice())?;
    text.put(b" free ")?;
    put_marks(text, condition.none_of.as_slice())
}

/// Appends the target that was taken.
#[tactic(auto, unfolding(crate::specs::Ways::taken_text))]
fn put_taken(text: &mut Text, taken: &Taken) -> Result<(), OutOfMemory>
    ensures { OnOk result (text.new ≡ text.old ++ taken_text taken.now) }
{
    text.put(b"target ")?;
    text.put_count(taken.row)?;
    text.put(b"/")?;
    text.put_number(u32::from(taken.target))?;
    text.put(b" ")
}

/// Appends the return cause.
#[tactic(auto, unfolding(crate::specs::Ways::cause_text))]
fn put_cause(text: &mut Text, cause: u8) -> Result<(), OutOfMemory>
    ensures { OnOk result (text.new ≡ text.old ++ cause_text cause) }
{
    text.put(b"return ")?;
    text.put_number(u32::from(cause))?;
    text.put(b" ")
}

fn put_cause_if_any(text: &mut Text, cause: Option<u8>) -> Result<(), OutOfMemory>
    ensures { OnOk result (text.new ≡ text.old ++ option_map_or cause_text cause []) }
{
    match cause {
        Some(cause) => put_cause(text, cause),
        None => Ok(()),
    }
}

fn put_taken_if_any(text: &mut Text, taken: &Option<Taken>) -> Result<(), OutOfMemory>
    ensures { OnOk result (text.new ≡ text.old ++ option_map_or taken_text taken.now []) }
{
    match taken {
        Some(taken) => put_taken(text, taken),
        None => Ok(()),
    }
}

#[tactic(auto, unfolding(crate::specs::Ways::handling_text))]
fn put_handling(text: &mut Text, handling: &Handling) -> Result<(), OutOfMemory>
    ensures { OnOk result (text.new ≡ text.old ++ handling_text handling.now) }
{
    put_cause_if_any(text, handling.cause)?;
    put_taken_if_any(text, &handling.taken)
}

/// Appends a way in which the relay sends the message.
#[tactic(auto, unfolding(crate::specs::Ways::way_text))]
fn put_way(text: &mut Text, way: &Explanation) -> Result<(), OutOfMemory>
    ensures { OnOk result (text.new ≡ text.old ++ way_text way.now) }
{
    put_handling(text, &way.handling)?;
    put_condition(text, &way.condition)
}

/// A way after another one.
#[tactic(auto, unfolding(crate::specs::Ways::or_way))]
fn put_or_way(text: &mut Text, way: &Explanation) -> Result<(), OutOfMemory>
    ensures { OnOk result (text.new ≡ text.old ++ or_way way.now) }
{
    text.put(b" or ")?;
    put_way(text, way)
}

fn put_or_ways(text: &mut Text, ways: &[Explanation]) -> Result<(), OutOfMemory>
    ensures { OnOk result (text.new ≡ text.old ++ flat_map or_way ways.now) }
{
    for way in ways {
        put_or_way(text, way)?;
    }
    Ok(())
}

/// Appends the ways in which the relay sends the message.
#[tactic(auto, unfolding(crate::specs::Ways::ways_text))]
pub fn put_ways(text: &mut Text, ways: &[Explanation]) -> Result<(), OutOfMemory>
    ensures { OnOk result (text.new ≡ text.old ++ ways_text ways.now) }
{
    match ways {
        [] => Ok(()),
        [first, rest @ ..] => {
            put_way(text, first)?;
            put_or_ways(text, rest)
        }
    }
}

/// Appends the first test that fails.
#[tactic(auto, unfolding(crate::specs::Ways::reason_words))]
fn put_reason(text: &mut Text, reason: Reason) -> Result<(), OutOfMemory>
    ensures { OnOk result (text.new ≡ text.old ++ reason_words reason) }
{
    match reason {
        Reason::Type => text.put(b"type"),
        Reason::NotAsked => text.put(b"not asked"),
        Reason::Class => text.put(b"class"),
        Reason::Cause => text.put(b"cause"),
        Reason::Calling => text.put(b"calling"),
        Reason::Parameters => text.put(b"parameters"),
        Reason::Stays => text.put(b"stays"),
        Reason::Hops => text.put(b"hops"),
        Reason::Point => text.put(b"point"),
        Reason::National => text.put(b"national"),
        Reason::Routing => text.put(b"routing"),
        Reason::Ssn => text.put(b"ssn"),
        Reason::Title => text.put(b"title"),
        Reason::Digits => text.put(b"digits"),
        Reason::CalledPoint => text.put(b"called point"),
        Reason::Closed => text.put(b"closed"),
    }
}

/// Appends why a message is unexplained.
#[tactic(auto, unfolding(crate::specs::Ways::why_words))]
pub fn put_why(text: &mut Text, why: Why) -> Result<(), OutOfMemory>
    ensures { OnOk result (text.new ≡ text.old ++ why_words why) }
{
    match why {
        Why::By { number, reason } => {
            text.put(b"by ")?;
            put_number(text, number)?;
            text.put(b" ")?;
            put_reason(text, reason)
        }
        Why::Again(number) => {
            text.put(b"again ")?;
            put_number(text, number)
        }
        Why::NoArrival => text.put(b"no arrival"),
    }
}
