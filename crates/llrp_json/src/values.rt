//! Values of JSON, appended to a text.

ghost use Rattle.std.specs.Prelude.{◌≡◌, ◌+◌, ◌*◌, ◌^◌, ◌<◌, ◌++◌, ◌∷◌, [], ℕ, List, OnOk, true, decimal, flat_map, length, map};
ghost use Rattle.std.specs.List.{join_with_byte, list_all};
ghost use Rattle.llrp_schema.specs.Calls.Schema.{field_rule};
ghost use Rattle.llrp_tree.specs.Tree.{words_of};
ghost use Rattle.llrp_listing.specs.NodeLine.{field_form, signed_text};
ghost use Rattle.tag_uri.specs.TagText.{IsTextOf};
ghost use Rattle.llrp_json.specs.JsonValues.{escaped, inside, member, quoted, string};
ghost use Rattle.llrp_json.specs.JsonItems.{IsValue, field_name};
ghost use Rattle.llrp_json.specs.Private.OpenJson.{words_after};
ghost use Rattle.llrp_json.specs.Private.PlainStrings.{is_plain};

use llrp_listing::Text;
use llrp_schema::Field;
use std::alloc::AllocError;

/// How many bits the field of an EPC-96 has; no other field has as many.
const EPC_BITS: u32 = 96;

/// Appends an octet of a string.
fn push_escaped(text: &mut Text, octet: u8) -> Result<(), AllocError>
    ensures { OnOk result (text.new ≡ text.old ++ escaped octet) }
{
    if octet == b'"' {
        return text.push_text(b"\\\"");
    }
    if octet == b'\\' {
        return text.push_text(b"\\\\");
    }
    if octet >= 32 {
        return text.push_text(&[octet]);
    }
    text.push_text(b"\\u00")?;
    text.push_hexadecimal(&[octet])
}

/// Whether an octet of a string stands for itself.
#[inline(always)]
fn is_plain(octet: u8) -> bool
    ensures { result ≡ is_plain octet }
{
    octet >= 32 && octet != b'"' && octet != b'\\'
}

/// Whether each octet of a string stands for itself.
fn are_plain(octets: &[u8]) -> bool
    ensures { result ≡ list_all is_plain octets.now }
{
    let mut all = true;
    for octet in octets {
        all = is_plain(*octet) && all;
    }
    all
}

/// Appends what stands between the quotes of a string, octet by octet.
fn push_each(text: &mut Text, octets: &[u8]) -> Result<(), AllocError>
    ensures { OnOk result (text.new ≡ text.old ++ inside octets.now) }
{
    for octet in octets {
        push_escaped(text, *octet)?;
    }
    Ok(())
}

/// Appends what stands between the quotes of a string.
pub(crate) fn push_inside(text: &mut Text, octets: &[u8]) -> Result<(), AllocError>
    ensures { OnOk result (text.new ≡ text.old ++ inside octets.now) }
{
    if are_plain(octets) {
        return text.push_text(octets);
    }
    push_each(text, octets)
}

/// Appends a string of UTF-8 between quotes.
pub fn push_string(text: &mut Text, octets: &[u8]) -> Result<(), AllocError>
    ensures { OnOk result (text.new ≡ text.old ++ string octets.now) }
{
    text.push_text(b"\"")?;
    push_inside(text, octets)?;
    text.push_text(b"\"")
}

/// Appends the text of an EPC's word, as a string; no octet of it needs an escape.
#[inline(always)]
fn push_epc(text: &mut Text, bits: u128) -> Result<(), AllocError>
    requires { bits < 2 ^ 96 }
    ensures { OnOk result ((epc : List ℕ) × IsTextOf bits epc
        × (text.new ≡ text.old ++ string epc)) }
{
    text.push_text(b"\"")?;
    text.push_epc(bits)?;
    text.push_text(b"\"")
}

/// Appends the value of a field.
#[inline(always)]
pub(crate) fn push_value(text: &mut Text, rule: &Field, number: u128) -> Result<(), AllocError>
    requires fits { number < 2 ^ rule.now.width }
    requires signed { rule.now.signed ≡ true → rule.now.width ≡ 8 }
    ensures { OnOk result ((value : List ℕ) × IsValue (field_form (field_rule rule.now)) number value
        × (text.new ≡ text.old ++ value)) }
{
    if rule.width == EPC_BITS {
        push_epc(text, number)
    } else if rule.signed {
        text.push_signed(number)
    } else {
        text.push_number(number)
    }
}

/// Appends a comma, and the name of a field with its colon.
pub(crate) fn push_field_name(text: &mut Text, rule: &Field) -> Result<(), AllocError>
    requires { list_all is_plain (field_rule rule.now).name ≡ true }
    ensures { OnOk result (text.new ≡ text.old
        ++ (44 ∷ (string (field_name (field_rule rule.now)) ++ 58 ∷ []))) }
{
    if rule.width == EPC_BITS {
        return text.push_text(b",\"EPC\":");
    }
    text.push_text(b",\"")?;
    text.push_text(rule.name.as_bytes())?;
    text.push_text(b"\":")
}

/// Appends a comma and the member of a field.
pub(crate) fn push_field(text: &mut Text, rule: &Field, number: u128) -> Result<(), AllocError>
    requires fits { number < 2 ^ rule.now.width }
    requires signed { rule.now.signed ≡ true → rule.now.width ≡ 8 }
    requires named { list_all is_plain (field_rule rule.now).name ≡ true }
    ensures { OnOk result ((value : List ℕ) × IsValue (field_form (field_rule rule.now)) number value
        × (text.new ≡ text.old
        ++ (44 ∷ member (field_name (field_rule rule.now)) value))) }
{
    push_field_name(text, rule)?;
    push_value(text, rule, number)
}

/// Appends a word of two octets in decimal.
fn push_word(text: &mut Text, high: u8, low: u8) -> Result<(), AllocError>
    ensures { OnOk result (text.new ≡ text.old ++ decimal (256 * high + low)) }
{
    text.push_number(u16::from_be_bytes([high, low]) as u128)
}

/// Appends words of two octets in decimal, each after a comma.
fn push_other_words(text: &mut Text, octets: &[u8]) -> Result<(), AllocError>
    ensures { OnOk result (text.new ≡ text.old ++ words_after true octets.now) }
{
    let mut rest = octets;
    while let [high, low, others @ ..] = rest {
        text.push_text(b",")?;
        push_word(text, *high, *low)?;
        rest = others;
    }
    Ok(())
}

/// Appends words of two octets in decimal, with a comma before each but the first of an array.
pub(crate) fn push_words(text: &mut Text, some: bool, octets: &[u8]) -> Result<(), AllocError>
    ensures { OnOk result (text.new ≡ text.old ++ words_after some octets.now) }
{
    if some {
        return push_other_words(text, octets);
    }
    let [high, low, rest @ ..] = octets else {
        return Ok(());
    };
    push_word(text, *high, *low)?;
    push_other_words(text, rest)
}
