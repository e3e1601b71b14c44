//! Lines with what people read in them: the sign of a number, and the names of kinds and of numbers.

ghost use Rattle.std.specs.Prelude.{◌≡◌, ◌++◌, ◌&&◌, Option, OnOk, Some, map, nat_eq};
ghost use Rattle.std.specs.Cmp.Lexicographic.{pointwise};
ghost use Rattle.std.specs.List.{list_any};
ghost use Rattle.llrp_schema.specs.Calls.Schema.{field_rule};
ghost use Rattle.llrp_explain.specs.Calls.ExplainLines.{ANumber, kind_line, line};
ghost use Rattle.llrp_explain.specs.Calls.ExplainText.{field_reading, is_signed, number_text, read_text, signed_text, tabbed};

use crate::push::{push_columns, push_digits};
use llrp_enumerations::name_of;
use llrp_schema::{Field, Kind, fields, name as kind_name, number};
use std::alloc::AllocError;

/// Whether one of the fields is signed and has this name.
fn has_signed(rules: &[Field], name: &[u8]) -> bool
    ensures { result ≡ list_any (λ r. r.signed && pointwise nat_eq r.name name.now)
        (map field_rule rules.now) }
{
    for rule in rules {
        if rule.signed && rule.name.as_bytes() == name {
            return true;
        }
    }
    false
}

/// Whether the field of a kind with this name is a signed octet.
fn is_signed(kind: Kind, name: &[u8], width: u32) -> bool
    ensures { result ≡ is_signed kind name.now width }
{
    width == 8 && has_signed(fields(kind), name)
}

/// Appends an octet in two's complement.
fn push_signed(text: &mut Vec<u8>, value: u128) -> Result<(), AllocError>
    ensures { OnOk result (text.new.items ≡ text.old.items ++ signed_text value) }
{
    if value < 128 {
        return push_digits(text, value);
    }
    text.extend_from_slice(b"-")?;
    push_digits(text, 256u128.saturating_sub(value))
}

/// Appends the number of a field of a kind.
fn push_field_value(
    text: &mut Vec<u8>,
    kind: Kind,
    name: &[u8],
    width: u32,
    value: u128,
) -> Result<(), AllocError>
    ensures { OnOk result (text.new.items ≡ text.old.items ++ number_text kind name.now width value) }
{
    if is_signed(kind, name, width) {
        return push_signed(text, value);
    }
    push_digits(text, value)
}

/// Appends a reading after a tab, if there is one.
fn push_reading(text: &mut Vec<u8>, reading: &[u8]) -> Result<(), AllocError>
    ensures { OnOk result (text.new.items ≡ text.old.items ++ tabbed reading.now) }
{
    if reading.is_empty() {
        return Ok(());
    }
    text.extend_from_slice(b"\t")?;
    text.extend_from_slice(reading)
}

/// The name of a number in a field of a kind; nothing where it has none.
fn reading_of(kind: Kind, name: &[u8], value: u128) -> &'static [u8]
    ensures { result.now ≡ field_reading (Some kind) name.now (ANumber value) }
{
    match name_of(kind, name, value) {
        None => &[],
        Some(reading) => reading.as_bytes(),
    }
}

/// Appends the line of a number in a field of a kind, where one is known.
pub(crate) fn push_read_line(
    text: &mut Vec<u8>,
    kind: Option<Kind>,
    bit: u32,
    width: u32,
    level: u8,
    name: &[u8],
    value: u128,
) -> Result<(), AllocError>
    ensures { OnOk result (text.new.items ≡ text.old.items
        ++ read_text kind bit (line level name.now width value)) }
{
    push_columns(text, bit, width, level, name)?;
    match kind {
        None => push_digits(text, value)?,
        Some(kind) => {
            push_field_value(text, kind, name, width, value)?;
            push_reading(text, reading_of(kind, name, value))?;
        }
    }
    text.extend_from_slice(b"\n")
}

/// Appends the line of the type in a head: the number and the name of a kind.
pub(crate) fn push_kind_line(
    text: &mut Vec<u8>,
    bit: u32,
    width: u32,
    level: u8,
    name: &[u8],
    kind: Kind,
) -> Result<(), AllocError>
    ensures { OnOk result ((before : Option Kind) → text.new.items ≡ text.old.items
        ++ read_text before bit (kind_line level name.now width kind)) }
{
    push_columns(text, bit, width, level, name)?;
    push_digits(text, number(kind) as u128)?;
    push_reading(text, kind_name(kind).as_bytes())?;
    text.extend_from_slice(b"\n")
}
