//! One key of a table, and the keys that it may not have.
ghost use Rattle.std.specs.Prelude.{◌≡◌, not, nat_eq, map, option_map, true, false};
ghost use Rattle.std.specs.List.{list_any};
ghost use Rattle.std.specs.Cmp.Lexicographic.{pointwise};
ghost use Rattle.toml.specs.Data.{get_member};
ghost use Rattle.toml.specs.View.{view, table_view};
ghost use Rattle.plan_text.specs.Shape.{line, line_shape, of_form, right_if, has_other};

use crate::form::{Form, has_form};
use plan_model::Place;
use toml::{Table, Value};

/// The value under a key.
pub fn found<'a>(table: &'a Table, word: &str) -> Option<&'a Value>
    ensures { option_map (λ value. view value.now) result ≡ get_member word.now (table_view table.now) }
{
    table.get(word)
}

/// Tests a key that must be there, with a value of a type. Otherwise the fault is `place`.
pub fn needs(table: &Table, word: &str, form: Form, place: Place) -> Result<(), Place>
    ensures { result ≡ line_shape (table_view table.now) (line true place word.now (of_form form)) }
{
    match found(table, word) {
        Some(value) => of_form(form, place, value),
        None => Err(place),
    }
}

/// Tests a key that may be absent, with a value of a type. Otherwise the fault is `place`.
pub fn allows(table: &Table, word: &str, form: Form, place: Place) -> Result<(), Place>
    ensures { result ≡ line_shape (table_view table.now) (line false place word.now (of_form form)) }
{
    match found(table, word) {
        Some(value) => of_form(form, place, value),
        None => Ok(()),
    }
}

fn of_form(form: Form, place: Place, value: &Value) -> Result<(), Place>
    ensures { result ≡ of_form form place (view value.now) }
{
    if has_form(form, value) {
        Ok(())
    } else {
        Err(place)
    }
}

/// Tests that a table has no keys except these. Otherwise the fault is `place`.
pub fn no_other(table: &Table, words: &[&str], place: Place) -> Result<(), Place>
    ensures { result ≡ right_if (not (has_other (map (λ word. word.now) words.now) (table_view table.now))) place }
{
    if has_other(table, words) {
        Err(place)
    } else {
        Ok(())
    }
}

fn has_other(table: &Table, words: &[&str]) -> bool
    ensures { result ≡ has_other (map (λ word. word.now) words.now) (table_view table.now) }
{
    for (key, _) in table.iter() {
        if !is_one_of(key.as_str(), words) {
            return true;
        }
    }
    false
}

fn is_one_of(key: &str, words: &[&str]) -> bool
    ensures { result ≡ list_any (λ word. pointwise nat_eq key.now word.now) words.now }
{
    words.iter().any(|word| key == *word)
}
