//! What a document says at a key. Each function has an answer for every document. If a key is absent, or its value is of
//! another type, the answer is nothing, an empty text or no elements. `wrong_shape` tests whether the types are right.
ghost use Rattle.std.specs.Prelude.{◌≡◌, option_map, option_copied, map};
ghost use Rattle.toml.specs.Data.{get};
ghost use Rattle.toml.specs.View.{view};
ghost use Rattle.plan_text.specs.Document.{has_key, text_of, elements_of, text_at, elements_at, text_if_there, integer_if_there};

use toml::Value;

/// The value under a key of a table.
pub fn value_at<'a>(value: &'a Value, key: &str) -> Option<&'a Value>
    ensures { option_map (λ found. view found.now) result ≡ get key.now (view value.now) }
{
    value.get(key)
}

/// Whether a table has a key.
pub fn has_key(value: &Value, key: &str) -> bool
    ensures { result ≡ has_key key.now (view value.now) }
{
    value_at(value, key).is_some()
}

/// The text that a value is.
pub fn text_of(value: &Value) -> &str
    ensures { result.now ≡ text_of (view value.now) }
{
    match value.as_str() {
        Some(text) => text,
        None => "",
    }
}

/// The elements of the array that a value is.
pub fn elements_of(value: &Value) -> &[Value]
    ensures { map view result.now ≡ elements_of (view value.now) }
{
    match value.as_array() {
        Some(array) => array.as_slice(),
        None => &[],
    }
}

/// The text under a key.
pub fn text_at<'a>(value: &'a Value, key: &str) -> &'a str
    ensures { result.now ≡ text_at key.now (view value.now) }
{
    match value_at(value, key) {
        Some(found) => text_of(found),
        None => "",
    }
}

/// The elements of the array under a key.
pub fn elements_at<'a>(value: &'a Value, key: &str) -> &'a [Value]
    ensures { map view result.now ≡ elements_at key.now (view value.now) }
{
    match value_at(value, key) {
        Some(found) => elements_of(found),
        None => &[],
    }
}

/// The text under a key that may be absent.
pub fn text_if_there<'a>(value: &'a Value, key: &str) -> Option<&'a str>
    ensures { option_copied result ≡ text_if_there key.now (view value.now) }
{
    match value_at(value, key) {
        Some(found) => found.as_str(),
        None => None,
    }
}

/// The integer under a key that may be absent.
pub fn integer_if_there(value: &Value, key: &str) -> Option<i64>
    ensures { result ≡ integer_if_there key.now (view value.now) }
{
    match value_at(value, key) {
        Some(found) => found.as_integer(),
        None => None,
    }
}
