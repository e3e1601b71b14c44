//! The names and the types of the members of an object, which come in any order (RFC 8259, section 4).

ghost use Rattle.std.specs.Prelude.{◌≡◌, bytes_eq, map, option_map};
ghost use Rattle.std.specs.List.{list_any};
ghost use Rattle.json.specs.Value.{items_view, members_view, value_view};
ghost use Rattle.llrp_json_read.specs.ObjectMembers.{are_whole, count_of, has_shape, is_integer, is_whole, member_fault, missing, mistyped, name_in, twice, unknown};
ghost use Rattle.llrp_json_read.specs.Private.Words.{member_rule};

use crate::refusal::Reason;
use json::Value;

/// A member of an object: its name, and its value.
pub(crate) type Member<'a> = (&'a str, Value<'a>);

/// What the value of a member is.
#[derive(Clone, Copy, Debug, Default, PartialEq, Eq)]
pub enum Shape {
    /// A string.
    #[default]
    Text,
    /// A number without a fraction and without an exponent.
    Integer,
    /// An array of such numbers.
    Integers,
    /// An array.
    Array,
}

/// A member that an object has.
#[derive(Clone, Copy, Debug, Default)]
pub(crate) struct ObjectMember {
    pub name: &'static str,
    pub shape: Shape,
    /// Whether it may be left out.
    pub optional: bool,
}

/// Whether one of the members that an object has is named so.
fn is_among(name: &str, rules: &[ObjectMember]) -> bool
    ensures { result ≡ list_any (λ rule. bytes_eq rule.name name.now) (map member_rule rules.now) }
{
    for rule in rules {
        if rule.name == name {
            return true;
        }
    }
    false
}

/// How many members have the name.
fn count_of(members: &[Member], name: &str) -> usize
    ensures { result ≡ count_of name.now (members_view members.now) }
{
    let mut count = 0;
    for member in members {
        if member.0 == name {
            count += 1;
        }
    }
    count
}

/// The first member that is none of these.
fn first_unknown<'a>(members: &[Member<'a>], rules: &[ObjectMember]) -> Option<&'a str>
    ensures { option_map (λ name. name.now) result ≡ unknown (members_view members.now) (map member_rule rules.now) }
{
    for member in members {
        if !is_among(member.0, rules) {
            return Some(member.0);
        }
    }
    None
}

/// The first that is not there and may not be left out.
fn first_missing(members: &[Member], rules: &[ObjectMember]) -> Option<&'static str>
    ensures { option_map (λ name. name.now) result ≡ name_in (missing (members_view members.now) (map member_rule rules.now)) }
{
    for rule in rules {
        if !rule.optional && count_of(members, rule.name) == 0 {
            return Some(rule.name);
        }
    }
    None
}

/// The first that is there several times.
fn first_twice(members: &[Member], rules: &[ObjectMember]) -> Option<&'static str>
    ensures { option_map (λ name. name.now) result ≡ name_in (twice (members_view members.now) (map member_rule rules.now)) }
{
    for rule in rules {
        if count_of(members, rule.name) > 1 {
            return Some(rule.name);
        }
    }
    None
}

/// Whether a number has neither a fraction nor an exponent.
fn is_integer(number: &str) -> bool
    ensures { result ≡ is_integer number.now }
{
    number
        .as_bytes()
        .iter()
        .all(|octet| octet.is_ascii_digit() || *octet == b'-')
}

/// Whether a value is a number without a fraction and without an exponent.
fn is_whole(value: &Value) -> bool
    ensures { result ≡ is_whole (value_view value.now) }
{
    match value {
        Value::Number(number) => is_integer(*number),
        _ => false,
    }
}

/// Whether each of the values is such a number.
fn are_whole(values: &[Value]) -> bool
    ensures { result ≡ are_whole (items_view values.now) }
{
    for value in values {
        if !is_whole(value) {
            return false;
        }
    }
    true
}

/// Whether a value has the shape.
fn has_shape(value: &Value, shape: Shape) -> bool
    ensures { result ≡ has_shape shape (value_view value.now) }
{
    match shape {
        Shape::Text => matches!(value, Value::String(_)),
        Shape::Integer => is_whole(value),
        Shape::Integers => match value {
            Value::Array(values) => are_whole(values.as_slice()),
            _ => false,
        },
        Shape::Array => matches!(value, Value::Array(_)),
    }
}

/// The first that is there with a value of another type.
fn first_mistyped(object: &Value, rules: &[ObjectMember]) -> Option<&'static str>
    ensures { option_map (λ name. name.now) result ≡ name_in (mistyped (value_view object.now) (map member_rule rules.now)) }
{
    for rule in rules {
        if let Some(value) = object.get(rule.name) {
            if !has_shape(value, rule.shape) {
                return Some(rule.name);
            }
        }
    }
    None
}

/// The member at which an object is refused that should have these members, and the reason.
pub(crate) fn member_fault<'a>(
    object: &Value<'a>,
    members: &[Member<'a>],
    rules: &[ObjectMember],
) -> Option<(&'a str, Reason)>
    ensures { option_map (λ at. (at.0.now, at.1)) result ≡ member_fault (value_view object.now) (members_view members.now) (map member_rule rules.now) }
{
    if let Some(name) = first_unknown(members, rules) {
        return Some((name, Reason::Unknown));
    }
    if let Some(name) = first_missing(members, rules) {
        return Some((name, Reason::Missing));
    }
    if let Some(name) = first_twice(members, rules) {
        return Some((name, Reason::Twice));
    }
    match first_mistyped(object, rules) {
        Some(name) => Some((name, Reason::Mistyped)),
        None => None,
    }
}
