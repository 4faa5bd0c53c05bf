//! The types that the values of a plan text have, apart from tables.
ghost use Rattle.std.specs.Prelude.{◌≡◌};
ghost use Rattle.std.specs.List.{list_all};
ghost use Rattle.toml.specs.View.{view};
ghost use Rattle.plan_text.specs.Shape.{has_form, is_integer, is_text, is_array_of};

use toml::Value;

/// The type of a value that is no table.
#[derive(Clone, Copy)]
pub enum Form {
    Integer,
    Text,
    /// An array of integers.
    Integers,
    /// An array of texts.
    Texts,
}

/// Whether a value is of a type.
pub fn has_form(form: Form, value: &Value) -> bool
    ensures { result ≡ has_form form (view value.now) }
{
    match form {
        Form::Integer => value.is_integer(),
        Form::Text => value.is_str(),
        Form::Integers => are_integers(value),
        Form::Texts => are_texts(value),
    }
}

fn are_integers(value: &Value) -> bool
    ensures { result ≡ is_array_of is_integer (view value.now) }
{
    match value.as_array() {
        Some(array) => all_integers(array.as_slice()),
        None => false,
    }
}

fn are_texts(value: &Value) -> bool
    ensures { result ≡ is_array_of is_text (view value.now) }
{
    match value.as_array() {
        Some(array) => all_texts(array.as_slice()),
        None => false,
    }
}

fn all_integers(values: &[Value]) -> bool
    ensures { result ≡ list_all (λ value. is_integer (view value)) values.now }
{
    values.iter().all(|value| value.is_integer())
}

fn all_texts(values: &[Value]) -> bool
    ensures { result ≡ list_all (λ value. is_text (view value)) values.now }
{
    values.iter().all(|value| value.is_str())
}
