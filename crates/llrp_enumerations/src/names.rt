//! Looks up names of numbers.

ghost use Rattle.std.specs.Prelude.{◌≡◌, MatchOption, None, Some, find, map, nat_eq};
ghost use Rattle.std.specs.Cmp.Lexicographic.{pointwise};
ghost use Rattle.llrp_enumerations.specs.Calls.Enumerations.{enumeration_in, enumeration_of, name_in, value_name};
ghost use Rattle.llrp_enumerations.specs.Private.Rows.{enumerated_field, named_value};

use crate::enumeration::{EnumeratedField, Enumeration, Value};
use crate::kinds::enumerated_fields;
use crate::values::values;
use llrp_schema::Kind;

/// The enumeration of the field with this name.
fn field_named(fields: &[EnumeratedField], name: &[u8]) -> Option<Enumeration>
    ensures { result ≡ enumeration_in (find (λ f. pointwise nat_eq f.name name.now)
        (map enumerated_field fields.now)) }
{
    for field in fields {
        if field.name.as_bytes() == name {
            return Some(field.enumeration);
        }
    }
    None
}

/// The name of a number of an enumeration.
fn number_named(values: &'static [Value], number: u128) -> Option<&'static str>
    ensures { MatchOption result
        (name_in (find (λ v. nat_eq v.number number) (map named_value values.now)) ≡ None)
        (λ name. name_in (find (λ v. nat_eq v.number number) (map named_value values.now))
        ≡ Some name.now) }
{
    for value in values {
        if value.number == number {
            return Some(value.name);
        }
    }
    None
}

/// The enumeration of the field of this kind with this name.
fn enumeration_of(kind: Kind, field: &[u8]) -> Option<Enumeration>
    ensures { result ≡ enumeration_of kind field.now }
{
    field_named(enumerated_fields(kind), field)
}

/// The name of a number in the field of this kind with this name, given as octets, as the kind's set calls it. There is none where the
/// field's numbers have no names, or this one has none.
pub fn name_of(kind: Kind, field: &[u8], number: u128) -> Option<&'static str>
    ensures { MatchOption result (value_name kind field.now number ≡ None)
        (λ name. value_name kind field.now number ≡ Some name.now) }
{
    match enumeration_of(kind, field) {
        None => None,
        Some(enumeration) => number_named(values(enumeration), number),
    }
}
