//! The tails of objects.

ghost use Rattle.std.specs.Prelude.{◌≡◌, ◌++◌, ◌∷◌, [], ◌<◌, ◌*◌, ◌+◌, ℕ, List, Some, IfOk, MatchOption, MatchResult, OnOk, decimal, length, true};
ghost use Rattle.std.specs.Bool.{MatchBool};
ghost use Rattle.hex.specs.Hex.{encode_lower};
ghost use Rattle.json.specs.Find.{get};
ghost use Rattle.json.specs.Json.{array, string};
ghost use Rattle.json.specs.Value.{items_view, value_view};
ghost use Rattle.llrp_tree.specs.Lawful.{AreOctets};
ghost use Rattle.llrp_tree.specs.Tree.{words_of};
ghost use Rattle.llrp_listing.specs.LineChecks.{IsTailOf};
ghost use Rattle.llrp_json_read.specs.ObjectSays.{SaysTail, numbers};
ghost use Rattle.llrp_json_read.specs.ObjectRefused.{tail_member};
ghost use Rattle.llrp_json_read.specs.Private.Words.{AppendsNumber, AreDigitsOf, IsNoNumber, SaysWords, has_capital};
ghost use Rattle.llrp_schema.specs.declared.kinds.Tail.TheVariants.{Words};

use crate::members::{array_of, string_of};
use crate::rules::tail_name;
use hex::FromHexError;
use json::Value;
use llrp_schema::Tail;
use llrp_tree::Octets;
use std::alloc::{AllocError, Global};

/// Appends the two octets of a number of 16 bits; returns whether the value is one.
fn push_word(octets: &mut Vec<u8>, value: &Value) -> Result<bool, AllocError>
    ensures { IfOk result (λ is. MatchBool is
        (AppendsNumber (value_view value.now) octets.old.items octets.new.items)
        (IsNoNumber (value_view value.now))) }
{
    let Some(text) = value.as_number() else {
        return Ok(false);
    };
    let Some(number) = llrp_listing::number_of(text.as_bytes(), 65535) else {
        return Ok(false);
    };
    octets.extend_from_slice(&[(number / 256) as u8, (number % 256) as u8])?;
    Ok(true)
}

/// The octets of an array of numbers of 16 bits.
pub(crate) fn read_words(alloc: Global, values: &[Value]) -> Result<Option<Vec<u8>>, AllocError>
    ensures { IfOk result (λ octets. MatchOption octets
        ((tail : List ℕ) → SaysWords (items_view values.now) tail → ⊥)
        (λ tail. SaysWords (items_view values.now) tail.items)) }
{
    let mut octets = Vec::new(alloc);
    for value in values {
        if !push_word(&mut octets, value)? {
            return Ok(None);
        }
    }
    Ok(Some(octets))
}

/// Whether one of the octets is an upper-case letter.
fn has_capital(octets: &[u8]) -> bool
    ensures { result ≡ has_capital octets.now }
{
    octets.iter().any(|octet| 65 <= *octet && *octet <= 90)
}

/// The octets of lower-case hexadecimal digits.
pub(crate) fn read_digits(alloc: Global, digits: &[u8]) -> Result<Option<Vec<u8>>, AllocError>
    ensures { IfOk result (λ octets. MatchOption octets
        ((tail : List ℕ) → AreDigitsOf digits.now tail → ⊥)
        (λ tail. AreDigitsOf digits.now tail.items)) }
{
    if has_capital(digits) {
        return Ok(None);
    }
    match hex::decode(alloc, digits) {
        Ok(octets) => Ok(Some(octets)),
        Err(error) => match error {
            FromHexError::OutOfMemory => Err(AllocError),
            _ => Ok(None),
        },
    }
}

/// The octets of the member with this name, where it is an array of numbers of 16 bits.
fn words_in(alloc: Global, object: &Value, name: &str) -> Result<Option<Octets>, AllocError>
    ensures { IfOk result (λ octets. MatchOption octets
        ((tail : List ℕ) → IsTailOf Words tail
        → get name.now (value_view object.now) ≡ Some (array (numbers (words_of tail))) → ⊥)
        (λ tail. IsTailOf Words tail
        × (get name.now (value_view object.now) ≡ Some (array (numbers (words_of tail)))))) }
{
    let Some(values) = array_of(object, name) else {
        return Ok(None);
    };
    match read_words(alloc, values)? {
        Some(octets) => Ok(Some(Octets::new(octets))),
        None => Ok(None),
    }
}

/// The octets of the member with this name, where it is a string.
fn text_in(alloc: Global, object: &Value, name: &str) -> Result<Option<Octets>, AllocError>
    ensures { IfOk result (λ octets. MatchOption octets
        ((tail : List ℕ) → AreOctets tail
        → get name.now (value_view object.now) ≡ Some (string tail) → ⊥)
        (λ tail. AreOctets tail × (get name.now (value_view object.now) ≡ Some (string tail)))) }
{
    let Some(text) = string_of(object, name) else {
        return Ok(None);
    };
    let octets = Octets::new(text.as_bytes().to_vec(alloc)?);
    let _ = octets.as_slice();
    Ok(Some(octets))
}

/// The octets of the member with this name, where it is a string of lower-case hexadecimal digits.
fn digits_in(alloc: Global, object: &Value, name: &str) -> Result<Option<Octets>, AllocError>
    ensures { IfOk result (λ octets. MatchOption octets
        ((tail : List ℕ) → AreOctets tail
        → get name.now (value_view object.now) ≡ Some (string (encode_lower tail)) → ⊥)
        (λ tail. AreOctets tail
        × (get name.now (value_view object.now) ≡ Some (string (encode_lower tail))))) }
{
    let Some(text) = string_of(object, name) else {
        return Ok(None);
    };
    match read_digits(alloc, text.as_bytes())? {
        Some(octets) => Ok(Some(Octets::new(octets))),
        None => Ok(None),
    }
}

/// The tail of this form that an object says.
pub(crate) fn read_tail(
    alloc: Global,
    object: &Value,
    form: Tail,
) -> Result<Option<Octets>, AllocError>
    ensures { IfOk result (λ octets. MatchOption octets
        ((tail : List ℕ) → SaysTail form (value_view object.now) tail → ⊥)
        (λ tail. SaysTail form (value_view object.now) tail)) }
{
    let name = tail_name(form);
    match form {
        Tail::Absent => Ok(Some(Octets::new(Vec::new(alloc)))),
        Tail::Words => words_in(alloc, object, name),
        Tail::Text => text_in(alloc, object, name),
        Tail::Bits | Tail::Data => digits_in(alloc, object, name),
    }
}
