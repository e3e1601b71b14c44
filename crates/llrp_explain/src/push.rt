//! Lines, appended to a text.

ghost use Rattle.std.specs.Prelude.{◌≡◌, ◌+◌, ◌++◌, ◌∷◌, ◌*◌, [], OnOk, codes, decimal};
ghost use Rattle.llrp_schema.specs.Calls.Schema.{field_rule};
ghost use Rattle.llrp_schema.specs.Schema.{number_of};
ghost use Rattle.llrp_schema.specs.declared.kinds.Kind.TheVariants.{Message};
ghost use Rattle.llrp_explain.specs.Calls.ExplainLines.{line, octets_line};
ghost use Rattle.hex.specs.Hex.{encode_lower};
ghost use Rattle.llrp_explain.specs.Calls.ExplainText.{columns_text, line_text, words_text};

use itoa::Buffer;
use llrp_schema::Field;
use std::alloc::AllocError;

/// Appends a number in decimal.
pub(crate) fn push_digits(text: &mut Vec<u8>, number: u128) -> Result<(), AllocError>
    ensures { OnOk result (text.new.items ≡ text.old.items ++ decimal number) }
{
    let mut digits = Buffer::new();
    text.extend_from_slice(digits.format(number).as_bytes())
}

/// Appends a number in decimal, and an octet.
fn push_number(text: &mut Vec<u8>, number: u128, end: u8) -> Result<(), AllocError>
    ensures { OnOk result (text.new.items ≡ text.old.items ++ (decimal number ++ (end ∷ []))) }
{
    push_digits(text, number)?;
    text.extend_from_slice(&[end])
}

/// Appends the columns before what stands in a field.
pub fn push_columns(
    text: &mut Vec<u8>,
    bit: u32,
    width: u32,
    level: u8,
    name: &[u8],
) -> Result<(), AllocError>
    ensures { OnOk result (text.new.items ≡ text.old.items
        ++ columns_text bit width level name.now) }
{
    push_number(text, bit as u128, b' ')?;
    push_number(text, width as u128, b' ')?;
    push_number(text, level as u128, b' ')?;
    text.extend_from_slice(name)?;
    text.extend_from_slice(b" ")
}

/// Appends the line of a number.
pub fn push_line(
    text: &mut Vec<u8>,
    bit: u32,
    width: u32,
    level: u8,
    name: &[u8],
    value: u128,
) -> Result<(), AllocError>
    ensures { OnOk result (text.new.items ≡ text.old.items
        ++ words_text bit width level name.now (decimal value)) }
{
    push_number(text, bit as u128, b' ')?;
    push_number(text, width as u128, b' ')?;
    push_number(text, level as u128, b' ')?;
    text.extend_from_slice(name)?;
    text.extend_from_slice(b" ")?;
    push_number(text, value, b'\n')
}

/// Appends the line of a field.
pub fn push_field(
    text: &mut Vec<u8>,
    bit: u32,
    level: u8,
    rule: &Field,
    value: u128,
) -> Result<(), AllocError>
    ensures { OnOk result (text.new.items ≡ text.old.items ++ line_text bit
        (line level (field_rule rule.now).name (field_rule rule.now).width value)) }
{
    push_line(text, bit, rule.width, level, rule.name.as_bytes(), value)
}

/// Appends octets in lower-case hexadecimal.
pub(crate) fn push_hexadecimal(text: &mut Vec<u8>, octets: &[u8]) -> Result<(), AllocError>
    ensures { OnOk result (text.new.items ≡ text.old.items ++ encode_lower octets.now) }
{
    for octet in octets {
        let mut digits = [0; 2];
        let Ok(()) = hex::encode_to_slice(&[*octet], &mut digits) else {
            unreachable!()
        };
        text.extend_from_slice(&digits)?;
    }
    Ok(())
}

/// Appends the line of octets.
pub(crate) fn push_octets_line(
    text: &mut Vec<u8>,
    bit: u32,
    level: u8,
    name: &[u8],
    octets: &[u8],
) -> Result<(), AllocError>
    ensures { OnOk result (text.new.items ≡ text.old.items ++ line_text bit
        (octets_line level name.now octets.now)) }
{
    push_number(text, bit as u128, b' ')?;
    push_number(text, 8 * octets.len() as u128, b' ')?;
    push_number(text, level as u128, b' ')?;
    text.extend_from_slice(name)?;
    text.extend_from_slice(b" x")?;
    push_hexadecimal(text, octets)?;
    text.extend_from_slice(b"\n")
}
