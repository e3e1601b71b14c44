//! The texts of the members of an object.

ghost use Rattle.std.specs.Prelude.{◌≡◌, option_and_then, option_map};
ghost use Rattle.json.specs.Find.{as_array, as_number, as_object, as_str, get};
ghost use Rattle.json.specs.Value.{items_view, members_view, value_view};

use crate::names::Member;
use json::Value;

/// The text of the member with this name, if it is a string.
pub(crate) fn string_of<'a>(object: &Value<'a>, name: &str) -> Option<&'a str>
    ensures { option_map (λ text. text.now) result
        ≡ option_and_then as_str (get name.now (value_view object.now)) }
{
    match object.get(name) {
        Some(value) => value.as_str(),
        None => None,
    }
}

/// The text of the member with this name, if it is a number.
pub(crate) fn number_of<'a>(object: &Value<'a>, name: &str) -> Option<&'a str>
    ensures { option_map (λ text. text.now) result
        ≡ option_and_then as_number (get name.now (value_view object.now)) }
{
    match object.get(name) {
        Some(value) => value.as_number(),
        None => None,
    }
}

/// The values of the member with this name, if it is an array.
pub(crate) fn array_of<'v, 'a>(object: &'v Value<'a>, name: &str) -> Option<&'v [Value<'a>]>
    ensures { option_map (λ values. items_view values.now) result
        ≡ option_and_then as_array (get name.now (value_view object.now)) }
{
    match object.get(name) {
        Some(Value::Array(values)) => Some(values.as_slice()),
        _ => None,
    }
}

/// The members of a value, if it is an object.
pub(crate) fn members_of<'v, 'a>(value: &'v Value<'a>) -> Option<&'v [Member<'a>]>
    ensures { option_map (λ members. members_view members.now) result
        ≡ as_object (value_view value.now) }
{
    match value {
        Value::Object(members) => Some(members.as_slice()),
        _ => None,
    }
}
