//! The numbers of an object, by the tables.

ghost use Rattle.std.specs.Prelude.{◌≡◌, ◌≤◌, ◌<◌, ◌-◌, ◌+◌, ◌^◌, ◌++◌, ℕ, List, true, MatchOption, MatchResult, codes, decimal, length, map};
ghost use Rattle.arrayvec.specs.ArrayVec.{array_vec_len};
ghost use Rattle.json.specs.Value.{value_view};
ghost use Rattle.llrp_schema.specs.Calls.Schema.{field_rule};
ghost use Rattle.llrp_listing.specs.NodeLine.{Version, Id, Unsigned, Signed, Epc, field_form, signed_text};
ghost use Rattle.llrp_json.specs.JsonItems.{field_name};
ghost use Rattle.llrp_json_read.specs.ObjectSays.{SaysField, SaysFields, SaysNumber, text_in};
ghost use Rattle.llrp_json_read.specs.ObjectRefused.{RefusesField, RefusesFields, RefusesText, at_member};
ghost use Rattle.std.specs.List.{list_all};
ghost use Rattle.llrp_json_read.specs.Private.Words.{is_readable, plain};

use crate::members::{number_of, string_of};
use crate::refusal::Reason;
use crate::rules::{EPC_BITS, field_name};
use arrayvec::ArrayVec;
use json::Value;
use llrp_schema::Field;
use tag_uri::word_of_text;

/// A message's version, 1 or 2.
pub(crate) fn read_version(object: &Value) -> Option<u8>
    ensures { MatchOption result
        ((n : ℕ) → SaysNumber Version (codes "version") (value_view object.now) n → ⊥)
        (λ n. SaysNumber Version (codes "version") (value_view object.now) n) }
{
    let Some(text) = number_of(object, "version") else {
        return None;
    };
    let Some(number) = llrp_listing::number_of(text.as_bytes(), 2) else {
        return None;
    };
    if number == 0 {
        return None;
    }
    Some(number as u8)
}

/// A message's id, of 32 bits.
pub(crate) fn read_id(object: &Value) -> Option<u32>
    ensures { MatchOption result
        ((n : ℕ) → SaysNumber Id (codes "id") (value_view object.now) n → ⊥)
        (λ n. SaysNumber Id (codes "id") (value_view object.now) n) }
{
    let Some(text) = number_of(object, "id") else {
        return None;
    };
    let Some(number) = llrp_listing::number_of(text.as_bytes(), 4294967295) else {
        return None;
    };
    Some(number as u32)
}

/// The 96 bits of an EPC.
fn read_epc(object: &Value, name: &str) -> Result<u128, Reason>
    ensures { MatchResult result (λ n. SaysNumber Epc name.now (value_view object.now) n)
        (λ why. ((n : ℕ) → SaysNumber Epc name.now (value_view object.now) n → ⊥)
        × RefusesText Epc (text_in Epc name.now (value_view object.now)) why) }
{
    let Some(text) = string_of(object, name) else {
        return Err(Reason::Value);
    };
    match word_of_text(text) {
        Ok(word) => Ok(word.number()),
        Err(fault) => Err(Reason::Epc(fault)),
    }
}

/// The eight bits of a number from -128 to -1 that has these digits after its `-`.
fn bits_below_zero(digits: &[u8]) -> Option<u128>
    ensures { MatchOption result
        ((n : ℕ) → 128 ≤ n → n < 256 → digits.now ≡ decimal (256 - n) → ⊥)
        (λ n. (128 ≤ n) × (n < 256) × (digits.now ≡ decimal (256 - n))) }
{
    let Some(size) = llrp_listing::number_of(digits, 128) else {
        return None;
    };
    if size == 0 {
        return None;
    }
    Some(256 - size as u128)
}

/// The eight bits of a number from 0 to 127.
fn bits_from_zero(digits: &[u8]) -> Option<u128>
    ensures { MatchOption result
        ((n : ℕ) → n < 128 → digits.now ≡ decimal n → ⊥)
        (λ n. (n < 128) × (digits.now ≡ decimal n)) }
{
    let Some(number) = llrp_listing::number_of(digits, 127) else {
        return None;
    };
    Some(number as u128)
}

/// The eight bits of a number from -128 to 127.
fn bits_of(text: &[u8]) -> Option<u128>
    ensures { MatchOption result ((n : ℕ) → n < 256 → text.now ≡ signed_text n → ⊥)
        (λ n. (n < 256) × (text.now ≡ signed_text n)) }
{
    match text {
        [b'-', digits @ ..] => bits_below_zero(digits),
        digits => bits_from_zero(digits),
    }
}

/// The eight bits of a number with a sign.
fn read_signed(object: &Value, name: &str) -> Result<u128, Reason>
    ensures { MatchResult result (λ n. SaysNumber Signed name.now (value_view object.now) n)
        (λ why. ((n : ℕ) → SaysNumber Signed name.now (value_view object.now) n → ⊥)
        × (why ≡ Reason.Value)) }
{
    let Some(text) = number_of(object, name) else {
        return Err(Reason::Value);
    };
    match bits_of(text.as_bytes()) {
        Some(bits) => Ok(bits),
        None => Err(Reason::Value),
    }
}

/// A number without a sign, up to this one.
fn read_unsigned(object: &Value, name: &str, most: u64) -> Result<u128, Reason>
    ensures { MatchResult result
        (λ n. SaysNumber Unsigned name.now (value_view object.now) n × (n ≤ most))
        (λ why. ((n : ℕ) → n ≤ most → SaysNumber Unsigned name.now (value_view object.now) n → ⊥)
        × (why ≡ Reason.Value)) }
{
    let Some(text) = number_of(object, name) else {
        return Err(Reason::Value);
    };
    match llrp_listing::number_of(text.as_bytes(), most) {
        Some(number) => Ok(number as u128),
        None => Err(Reason::Value),
    }
}

/// The value of a plain field.
fn read_field(object: &Value, rule: &Field) -> Result<u128, Reason>
    requires { is_readable (field_rule rule.now) ≡ true }
    ensures { MatchResult result (λ n. SaysField (field_rule rule.now) (value_view object.now) n)
        (λ why. RefusesField (field_rule rule.now) (value_view object.now)
        (at_member (field_name (field_rule rule.now)) why)) }
{
    let name = field_name(rule);
    if rule.width == EPC_BITS {
        return read_epc(object, name);
    }
    if rule.signed {
        return read_signed(object, name);
    }
    read_unsigned(object, name, rule.greatest as u64)
}

/// The values of the plain ones of some fields. The error is the first of them that is refused, by
/// the name of its member.
pub(crate) fn read_fields(
    object: &Value,
    rules: &[Field],
) -> Result<ArrayVec<u128, 12>, (&'static str, Reason)>
    requires few { length (plain (map field_rule rules.now)) ≤ 12 }
    requires readable { list_all is_readable (plain (map field_rule rules.now)) ≡ true }
    ensures { MatchResult result
        (λ fields. SaysFields (plain (map field_rule rules.now)) (value_view object.now)
        fields.items)
        (λ at. RefusesFields (plain (map field_rule rules.now)) (value_view object.now)
        (at_member at.0.now at.1)) }
{
    let mut fields = ArrayVec::new();
    for rule in rules {
        if !rule.reserved {
            match read_field(object, rule) {
                Ok(number) => fields.push(number),
                Err(reason) => return Err((field_name(rule), reason)),
            }
        }
    }
    Ok(fields)
}
